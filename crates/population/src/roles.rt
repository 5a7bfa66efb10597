// The columns of a predicate: of each role the first value and the size of its type, where it starts
// among the type's members, and where it stands among the parts.
ghost use Rattle.std.specs.Prelude.{◌≡◌, ◌+◌, ◌*◌, ◌≤◌, length, drop};
ghost use Rattle.counting.specs.Lists.{map_from};
ghost use Rattle.orm.specs.Populate.{taken_before};
ghost use Rattle.buffer.specs.Written.{Wrote};
ghost use Rattle.table.specs.Positions.{role_width, wide_role, diagram_of, Walkable};
ghost use Rattle.table.specs.Cursors.{placed_at, Here};
ghost use Rattle.tuples.specs.Steps.{Small};
ghost use Rattle.population.specs.Plan.{position, played, column_of, Listed, SmallArity, Front};

use crate::rows::Column;
use crate::types::{first_value, size};
use buffer::Output;

// How many members the roles of a type take before the role p; `types` has the type of each role,
// and the first role has the set `first`.
fn taken(types: &[u32], c: &[u32], first: u32, number: u32, p: u32) -> u32
    requires small { Small c.now }
    requires types_len_bound { length types.now ≤ 96 }
    requires first_bound { first ≤ 64 }
    ensures { result ≡ taken_before c.now p (played number first types.now) }
{
    let mut sum = 0;
    for i in 0..types.len() {
        let set = first + i as u32;
        if types[i] == number {
            if set == p {
                return sum;
            }
            sum += size(c, set);
        }
    }
    sum
}

// Where p stands in a list; past its end if it does not.
fn position(p: u32, list: &[u32]) -> u32
    requires { length list.now ≤ 6 }
    ensures { result ≡ position p list.now }
{
    for i in 0..list.len() {
        if list[i] == p {
            return i as u32;
        }
    }
    list.len() as u32
}

// The column of the role p, whose line is at position q.
fn column(t: &[u32], c: &[u32], types: &[u32], roles: &[u32], p: u32, q: usize) -> Column
    requires walkable { Walkable t.now }
    requires small { Small c.now }
    requires listed { Listed types.now roles.now }
    requires role_width_in_bounds { q + role_width ≤ length t.now }
    ensures { result ≡ column_of (diagram_of t.now) c.now types.now roles.now p (wide_role (drop q t.now)) }
{
    let number = table::number(t, q, 0);
    let player = number.saturating_sub(1);
    let first = first_value(t, player);
    let size = size(c, player);
    let start = taken(types, c, table::first_role(t), number, p);
    let place = position(p, roles);
    Column {
        first,
        size,
        start,
        place,
    }
}

fn push_columns(
    t: &[u32],
    c: &[u32],
    types: &[u32],
    roles: &[u32],
    x: table::Cursor,
    out: &mut Output<'_, Column>,
)
    requires walkable { Walkable t.now }
    requires small { Small c.now }
    requires listed { Listed types.now roles.now }
    requires here { Here t.now x }
    ensures { Wrote out.old
        (map_from (column_of (diagram_of t.now) c.now types.now roles.now) x.roles
        (placed_at t.now x).predicate.roles)
        out.new }
{
    let q = table::roles_at(t, x.at);
    for i in 0..table::number(t, x.at, 2) {
        let line = q + table::ROLE_WIDTH * i as usize;
        out.push(column(t, c, types, roles, x.roles + i, line));
    }
}

// The columns of the predicate at x at the front of scratch.
pub fn columns(
    t: &[u32],
    c: &[u32],
    types: &[u32],
    roles: &[u32],
    x: table::Cursor,
    space: &mut [Column],
) -> usize
    requires walkable { Walkable t.now }
    requires small { Small c.now }
    requires listed { Listed types.now roles.now }
    requires here { Here t.now x }
    requires few { SmallArity t.now x }
    requires room { length space.old ≡ 6 }
    ensures { Front
        (map_from (column_of (diagram_of t.now) c.now types.now roles.now) x.roles
        (placed_at t.now x).predicate.roles)
        space.new result }
{
    let mut out = Output::new(space);
    push_columns(t, c, types, roles, x, &mut out);
    out.at
}
