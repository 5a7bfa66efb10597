// How many cells the types and the predicates have.
ghost use Rattle.std.specs.Prelude.{◌≡◌, ◌+◌, ◌*◌, ◌≤◌, length, get_or, drop};
ghost use mathlib.Core.List.{map, flat_map};
ghost use Rattle.counting.specs.Lists.{up_from};
ghost use Rattle.orm.specs.Sets.{placed};
ghost use Rattle.orm.specs.Population.{cells_of_type, cells_of_pred};
ghost use Rattle.orm.specs.Populate.{type_values, rows};
ghost use Rattle.table.specs.Positions.{diagram_of, Walkable};
ghost use Rattle.table.specs.Cursors.{Here};
ghost use Rattle.tuples.specs.Steps.{Small};

use crate::types::size;

pub fn count_type_cells(t: &[u32], c: &[u32]) -> usize
    requires walkable { Walkable t.now }
    requires small { Small c.now }
    ensures value { result
        ≡ length
        (flat_map cells_of_type
        (map (type_values (diagram_of t.now) c.now) (up_from 0 (length (diagram_of t.now).types)))) }
    ensures upper_bound { result ≤ 32 * 4097 }
{
    let mut n = 0;
    for a in 0..table::type_count(t) {
        n += 1 + size(c, a) as usize;
    }
    n
}

// In the rows of the predicate at x.
fn count_row_cells(t: &[u32], c: &[u32], x: table::Cursor) -> usize
    requires walkable { Walkable t.now }
    requires small { Small c.now }
    requires here { Here t.now x }
    ensures value { result ≡ get_or c.now x.own 0 * get_or (drop x.at t.now) 2 0 }
    ensures upper_bound { result ≤ 4096 * 160 }
{
    size(c, x.own) as usize * table::number(t, x.at, 2) as usize
}

pub fn count_pred_cells(t: &[u32], c: &[u32]) -> usize
    requires walkable { Walkable t.now }
    requires small { Small c.now }
    ensures value { result
        ≡ length
        (flat_map cells_of_pred
        (map (rows (diagram_of t.now) c.now) (placed (diagram_of t.now)))) }
    ensures upper_bound { result ≤ 32 * (1 + 4096 * 160) }
{
    let mut x = table::first_cursor(t, table::role_count(t));
    let mut n = 0;
    for _ in 0..table::pred_count(t) {
        n += 1 + count_row_cells(t, c, x);
        x = table::next_cursor(t, x);
    }
    n
}
