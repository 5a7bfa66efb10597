ghost use Rattle.std.specs.Prelude.{◌≡◌, ◌+◌, ◌≤◌, ◌<◌, min, length, get_or, drop};
ghost use Rattle.counting.specs.Lists.{column};
ghost use Rattle.columns.specs.Values.{values_in};
ghost use Rattle.blocks.specs.Blocks.{members_at, rows_at};
ghost use Rattle.blocks.specs.Places.{RowsHere, ColumnHere};

use crate::{Blocks, PredBlock, block, size};
use columns::{Column, Rows};

// `step` places on from `at`, and no further than the end.
fn next(cells: &[u32], at: usize, step: usize) -> usize
    ensures cells_value { drop result cells.now ≡ drop step (drop at cells.now) }
    ensures value { result ≡ min (at + step) (length cells.now) }
{
    at.saturating_add(step).min(cells.len())
}

impl<'a> Blocks<'a> {
    // The members of the type whose block has this number.
    pub fn members(&self, k: usize) -> Column<'a>
        ensures values { values_in result ≡ members_at (drop (get_or self.now.starts.now k 0) self.now.cells.now) }
        ensures count { result.count ≡ length (members_at (drop (get_or self.now.starts.now k 0) self.now.cells.now)) }
        ensures cells { result.cells.now ≡ self.now.cells.now }
    {
        let at = block(self.starts, k);
        let start = next(self.cells, at, 1);
        let end = next(self.cells, start, size(self.cells, at));
        Column {
            cells: self.cells,
            start,
            step: 1,
            count: end - start,
        }
    }

    // The rows of the predicate with so many roles whose block has this number.
    pub fn rows(&self, k: usize, width: usize) -> Rows<'a>
        ensures { RowsHere self.now.cells.now (get_or self.now.starts.now k 0) width result }
    {
        let at = block(self.starts, k);
        Rows {
            cells: self.cells,
            start: next(self.cells, at, 1),
            width,
            count: size(self.cells, at),
        }
    }
}

impl<'a> PredBlock<'a> {
    // Column j of its rows.
    pub fn column(&self, j: usize) -> Column<'a>
        requires { j < self.now.width }
        ensures values { values_in result ≡ column j (rows_at self.now.width (drop self.now.at self.now.cells.now)) }
        ensures cells { result.cells.now ≡ self.now.cells.now }
        ensures column_here { ColumnHere self.now.cells.now self.now.at self.now.width result.start result.step result.count }
    {
        let first = next(self.cells, self.at, 1);
        Column {
            cells: self.cells,
            start: next(self.cells, first, j),
            step: self.width,
            count: size(self.cells, self.at),
        }
    }
}
