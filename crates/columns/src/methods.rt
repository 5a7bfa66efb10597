ghost use Rattle.std.specs.Prelude.{◌≡◌, ◌+◌, ◌*◌, ◌≤◌, ◌<◌, eqb, [], ◌∷◌, length, get_or, drop};
ghost use Rattle.counting.specs.Lists.{same};
ghost use Rattle.counting.specs.Distinct.{occurrences, all_differ};
ghost use Rattle.columns.specs.Values.{values_in, key_of, keys_in, occurring};

use crate::{Column, Keys, Rows, in_range};

impl<'a> Column<'a> {
    // Its value with this number, counted from 0.
    #[tactic(auto, using(crate::specs::Reach::value_is))]
    pub fn value(&self, i: usize) -> u32
        requires { i < self.now.count }
        ensures { result ≡ get_or (values_in self.now) i 0 }
    {
        self.cells[self.start + i * self.step]
    }

    // A row for each value, which starts with it.
    pub fn rows(&self) -> Rows<'a>
        ensures cells { result.cells.now ≡ self.now.cells.now }
        ensures start { result.start ≡ self.now.start }
        ensures width { result.width ≡ self.now.step }
        ensures count { result.count ≡ self.now.count }
    {
        Rows {
            cells: self.cells,
            start: self.start,
            width: self.step,
            count: self.count,
        }
    }

    // The values differ.
    pub fn differ(&self) -> bool
        ensures { result ≡ all_differ eqb (values_in self.now) }
    {
        let keys = Keys {
            rows: self.rows(),
            columns: &[0],
        };
        keys.occurring(1, 1)
    }
}

impl<'a> Keys<'a> {
    // The row with number x, counted from 0, and what stands behind it.
    pub fn row(&self, x: usize) -> &'a [u32]
        requires { x < self.now.rows.count }
        ensures { result.now ≡ drop (x * self.now.rows.width) (drop self.now.rows.start self.now.rows.cells.now) }
    {
        let rows = &self.rows;
        &rows.cells[rows.start + x * rows.width..]
    }

    // The keys of the rows x and y are the same.
    pub fn same(&self, x: usize, y: usize) -> bool
        requires x_lt_count { x < self.now.rows.count }
        requires y_lt_count { y < self.now.rows.count }
        ensures { result ≡ same (key_of self.now.rows self.now.columns.now x) (key_of self.now.rows self.now.columns.now y) }
    {
        let a = self.row(x);
        let b = self.row(y);
        for j in self.columns {
            if a[*j as usize] != b[*j as usize] {
                return false;
            }
        }
        true
    }

    // How many rows have the key of row x.
    fn occurrences(&self, x: usize) -> usize
        requires { x < self.now.rows.count }
        ensures { result ≡ occurrences same (key_of self.now.rows self.now.columns.now x) (keys_in self.now.rows self.now.columns.now) }
    {
        let mut n: usize = 0;
        for y in 0..self.rows.count {
            if self.same(x, y) {
                n += 1;
            }
        }
        n
    }

    // The key of each row is that of `low` to `high` rows.
    pub fn occurring(&self, low: u32, high: u32) -> bool
        ensures { result ≡ occurring low high (keys_in self.now.rows self.now.columns.now) (keys_in self.now.rows self.now.columns.now) }
    {
        for x in 0..self.rows.count {
            if !in_range(low, high, self.occurrences(x)) {
                return false;
            }
        }
        true
    }
}
