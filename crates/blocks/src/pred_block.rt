ghost use Rattle.std.specs.Prelude.{◌≡◌, drop};
ghost use Rattle.table.specs.Positions.{pred_of, Walkable};
ghost use Rattle.blocks.specs.Blocks.{pred_width};
ghost use Rattle.blocks.specs.Standing.{PredHere};

// A predicate by its line in a table, where its block starts in cells, and how many roles it has: at most 6. Its rows are there, each
// with a cell for each role.
#[derive(Clone, Copy, Debug)]
pub struct PredBlock<'a> {
    pub table: &'a [u32],
    pub cells: &'a [u32],
    pub line: usize,
    pub at: usize,
    pub width: usize,
    ghost walkable: { Walkable table.now },
    ghost here: { PredHere table.now cells.now line at },
    ghost wide: { width ≡ pred_width (pred_of (drop line table.now)) },
}
