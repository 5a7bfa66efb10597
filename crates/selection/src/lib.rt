// The roles of a valid table that are of one type, or in one group: their sets, and how many they are.
#![tactic(auto)]

pub mod players;

ghost use Rattle.std.specs.Prelude.{◌≡◌, ◌+◌, ◌*◌, ◌≤◌, ◌<◌, length, get_or, drop};
ghost use Rattle.counting.specs.Lists.{up_from};
ghost use Rattle.orm.specs.Sets.{roles_in_group, group_roles};
ghost use Rattle.buffer.specs.Written.{Wrote};
ghost use Rattle.orm.specs.Diagram.{all_roles};
ghost use Rattle.table.specs.Positions.{role_width, roles_in, diagram_of, Walkable};
ghost use Rattle.table.specs.Cursors.{placed_at, Here};
ghost use Rattle.selection.specs.Selected.{types_of, positions, Types};

use buffer::Output;

// Consecutive numbers, as many as the slice is long.
fn count_up(first: u32, numbers: &mut [u32])
    requires { first + length numbers.old < 4294967296 }
    ensures { numbers.new ≡ up_from first (length numbers.old) }
{
    for (i, x) in numbers.iter_mut().enumerate() {
        *x = first + i as u32;
    }
}

// `count` consecutive numbers. That there is room is tested once for all of them.
pub fn push_up(first: u32, count: u32, out: &mut Output<'_, u32>)
    requires { first + count < 4294967296 }
    ensures { Wrote out.old (up_from first count) out.new }
{
    if out.at < out.buffer.len() {
        let end = out.at + (out.buffer.len() - out.at).min(count as usize);
        count_up(first, &mut out.buffer[out.at..end]);
        out.at = end;
    }
}

// ---- the types of roles

// The types of the `count` roles from position q on.
fn push_types(t: &[u32], q: usize, count: u32, out: &mut Output<'_, u32>)
    requires walkable { Walkable t.now }
    requires count_in_bounds { q + role_width * count ≤ length t.now }
    ensures { Wrote out.old (types_of (roles_in count (drop q t.now))) out.new }
{
    for i in 0..count {
        out.push(table::number(t, q + table::ROLE_WIDTH * i as usize, 0));
    }
}

// The types of all roles.
pub fn push_all_types(t: &[u32], out: &mut Output<'_, u32>)
    requires { Walkable t.now }
    ensures { Wrote out.old (types_of (all_roles (diagram_of t.now))) out.new }
{
    let mut q = table::first_pred(t);
    for _ in 0..table::pred_count(t) {
        let count = table::number(t, q, 2);
        push_types(t, table::roles_at(t, q), count, out);
        q = table::next_pred(t, q);
    }
}

// ---- roles by their types

// How many roles a table has whose roles are of these types.
pub fn role_count(t: &[u32], types: &[u32]) -> u32
    requires { Types t.now types.now }
    ensures value { result ≡ length (all_roles (diagram_of t.now)) }
    ensures upper_bound { result ≤ 96 }
{
    types.len() as u32
}

// The sets of the roles of the type with this number; `first` is the first role's set.
pub fn push_of_type(types: &[u32], number: u32, first: u32, out: &mut Output<'_, u32>)
    requires { first + length types.now < 4294967296 }
    ensures { Wrote out.old (positions number first types.now) out.new }
{
    for (i, x) in types.iter().enumerate() {
        if *x == number {
            out.push(first + i as u32);
        }
    }
}

// How many they are.
pub fn count_of_type(types: &[u32], number: u32) -> u32
    requires { length types.now < 4294967296 }
    ensures { result ≡ length (positions number 0 types.now) }
{
    types.iter().filter(|x| **x == number).count() as u32
}

// ---- roles of a group

// Of the `count` roles from position q on, the sets of those in the group with this number; `first` is
// the first role's set.
pub fn push_roles(
    t: &[u32],
    q: usize,
    count: u32,
    first: u32,
    number: u32,
    out: &mut Output<'_, u32>,
)
    requires walkable { Walkable t.now }
    requires count_in_bounds { q + role_width * count ≤ length t.now }
    requires count_bound { first + count < 4294967296 }
    ensures { Wrote out.old (roles_in_group number first (roles_in count (drop q t.now))) out.new }
{
    for i in 0..count {
        if table::number(t, q + table::ROLE_WIDTH * i as usize, 2) == number {
            out.push(first + i);
        }
    }
}

// How many they are.
fn count_roles(t: &[u32], q: usize, count: u32, number: u32) -> u32
    requires walkable { Walkable t.now }
    requires count_in_bounds { q + role_width * count ≤ length t.now }
    ensures value { result ≡ length (roles_in_group number 0 (roles_in count (drop q t.now))) }
    ensures upper_bound { result ≤ count }
{
    let mut n = 0;
    for i in 0..count {
        if table::number(t, q + table::ROLE_WIDTH * i as usize, 2) == number {
            n += 1;
        }
    }
    n
}

// The sets of the roles in the predicate's group with this number; 0: in no group.
pub fn push_in_group(t: &[u32], x: table::Cursor, number: u32, out: &mut Output<'_, u32>)
    requires walkable { Walkable t.now }
    requires here { Here t.now x }
    ensures { Wrote out.old (group_roles (placed_at t.now x) number) out.new }
{
    let count = table::number(t, x.at, 2);
    push_roles(t, table::roles_at(t, x.at), count, x.roles, number, out);
}

// How many they are.
pub fn count_in_group(t: &[u32], x: table::Cursor, number: u32) -> u32
    requires walkable { Walkable t.now }
    requires here { Here t.now x }
    ensures value { result ≡ length (group_roles (placed_at t.now x) number) }
    ensures upper_bound { result ≤ get_or (drop x.at t.now) 2 0 }
{
    let count = table::number(t, x.at, 2);
    count_roles(t, table::roles_at(t, x.at), count, number)
}
