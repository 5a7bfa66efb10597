// The parts of a predicate, its groups and then its ungrouped roles: their roles, how many these are,
// their sizes, and the steps of their pairing.
ghost use Rattle.std.specs.Prelude.{◌≡◌, ◌+◌, ◌*◌, ◌≤◌, length, drop};
ghost use Rattle.orm.specs.Sets.{roles_in_group};
ghost use Rattle.buffer.specs.Written.{Wrote, WroteAll};
ghost use Rattle.table.specs.Positions.{role_width, roles_in, Walkable};
ghost use Rattle.table.specs.Cursors.{placed_at, Here};
ghost use Rattle.tuples.specs.Steps.{Small};
ghost use Rattle.population.specs.Plan.{order, counts, owns, sizes_of, SmallArity, Front};

use crate::types::size;
use buffer::Output;

// The roles of the parts, part by part.
fn push_order(t: &[u32], x: table::Cursor, out: &mut Output<'_, u32>)
    requires walkable { Walkable t.now }
    requires here { Here t.now x }
    ensures { Wrote out.old (order (placed_at t.now x)) out.new }
{
    for i in 0..table::number(t, x.at, 3) {
        selection::push_in_group(t, x, i + 1, out);
    }
    selection::push_in_group(t, x, 0, out);
}

// How many roles each part has.
fn push_counts(t: &[u32], x: table::Cursor, out: &mut Output<'_, u32>)
    requires walkable { Walkable t.now }
    requires here { Here t.now x }
    ensures { Wrote out.old (counts (placed_at t.now x)) out.new }
{
    for i in 0..table::number(t, x.at, 3) {
        out.push(selection::count_in_group(t, x, i + 1));
    }
    out.fill(selection::count_in_group(t, x, 0), 1);
}

// The sizes of the ungrouped ones of the `count` roles from position q on; `first` is the first role's
// set.
fn push_alone(t: &[u32], c: &[u32], q: usize, count: u32, first: u32, out: &mut Output<'_, u32>)
    requires walkable { Walkable t.now }
    requires small { Small c.now }
    requires count_in_bounds { q + role_width * count ≤ length t.now }
    requires sets { first + count ≤ 160 }
    ensures { Wrote out.old
        (sizes_of c.now (roles_in_group 0 first (roles_in count (drop q t.now)))) out.new }
{
    for i in 0..count {
        if table::number(t, q + table::ROLE_WIDTH * i as usize, 2) == 0 {
            out.push(size(c, first + i));
        }
    }
}

// The sizes of the parts.
fn push_owns(t: &[u32], c: &[u32], x: table::Cursor, out: &mut Output<'_, u32>)
    requires walkable { Walkable t.now }
    requires small { Small c.now }
    requires here { Here t.now x }
    ensures { Wrote out.old (owns c.now (placed_at t.now x)) out.new }
{
    for i in 0..table::number(t, x.at, 3) {
        out.push(size(c, x.groups + i));
    }
    let count = table::number(t, x.at, 2);
    push_alone(t, c, table::roles_at(t, x.at), count, x.roles, out);
}

// ---- the same at the front of scratch

pub fn roles(t: &[u32], x: table::Cursor, space: &mut [u32]) -> usize
    requires walkable { Walkable t.now }
    requires here { Here t.now x }
    requires few { SmallArity t.now x }
    requires room { length space.old ≡ 6 }
    ensures { Front (order (placed_at t.now x)) space.new result }
{
    let mut out = Output::new(space);
    push_order(t, x, &mut out);
    out.at
}

pub fn part_counts(t: &[u32], x: table::Cursor, space: &mut [u32]) -> usize
    requires walkable { Walkable t.now }
    requires here { Here t.now x }
    requires few { SmallArity t.now x }
    requires room { length space.old ≡ 12 }
    ensures { Front (counts (placed_at t.now x)) space.new result }
{
    let mut out = Output::new(space);
    push_counts(t, x, &mut out);
    out.at
}

pub fn part_sizes(t: &[u32], c: &[u32], x: table::Cursor, space: &mut [u32]) -> usize
    requires walkable { Walkable t.now }
    requires small { Small c.now }
    requires here { Here t.now x }
    ensures wrote { WroteAll space.old (owns c.now (placed_at t.now x)) space.new result }
    ensures front { SmallArity t.now x → length space.old ≡ 12
        → Front (owns c.now (placed_at t.now x)) space.new result }
{
    let mut out = Output::new(space);
    push_owns(t, c, x, &mut out);
    out.at
}

// The sizes of some roles.
pub fn role_sizes(c: &[u32], roles: &[u32], space: &mut [u32]) -> usize
    requires small { Small c.now }
    requires few { length roles.now ≤ 6 }
    requires room { length space.old ≡ 6 }
    ensures { Front (sizes_of c.now roles.now) space.new result }
{
    let mut out = Output::new(space);
    push_sizes(c, roles, &mut out);
    out.at
}

fn push_sizes(c: &[u32], sets: &[u32], out: &mut Output<'_, u32>)
    requires { Small c.now }
    ensures { Wrote out.old (sizes_of c.now sets.now) out.new }
{
    for set in sets {
        out.push(size(c, *set));
    }
}
