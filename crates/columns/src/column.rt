ghost use Rattle.columns.specs.Reached.{Reached};

// `count` of the cells, the first at `start` and each `step` after the one before; all of them are there.
#[derive(Clone, Copy, Debug)]
pub struct Column<'a> {
    pub cells: &'a [u32],
    pub start: usize,
    pub step: usize,
    pub count: usize,
    ghost reached: { Reached cells.now start step count },
}
