ghost use Rattle.table.specs.Positions.{Walkable};
ghost use Rattle.blocks.specs.Starts.{Located};

// A table, cells, and where each block of the cells starts that the table's diagram tells of: the types' and then the predicates'.
// That the cells are those of a population (`Populated`) stays a `requires`: as a ghost field it is refused, since it holds more than
// propositions.
#[derive(Clone, Copy, Debug)]
pub struct Blocks<'a> {
    pub table: &'a [u32],
    pub cells: &'a [u32],
    pub starts: &'a [usize],
    ghost walkable: { Walkable table.now },
    ghost located: { Located table.now cells.now starts.now },
}
