ghost use Rattle.columns.specs.Keyed.{Keyed};

use crate::Rows;

// Rows, and some of their columns by number: what a row holds there is its key. The rows are there as far as these columns reach.
#[derive(Clone, Copy, Debug)]
pub struct Keys<'a> {
    pub rows: Rows<'a>,
    pub columns: &'a [u32],
    ghost keyed: { Keyed rows columns.now },
}
