// The limits of the predicates: of their roles, of their groups, and of their rows.
ghost use Rattle.std.specs.Prelude.{◌≡◌, ◌+◌, ◌-◌, ◌≤◌, ◌<◌, length, get_or, slice_index, drop};
ghost use mathlib.Core.List.{[], ◌∷◌, flat_map, flatten};
ghost use Rattle.counting.specs.Lists.{map_from, up_from};
ghost use Rattle.orm.specs.Diagram.{all_roles};
ghost use Rattle.orm.specs.Form.{group_of};
ghost use Rattle.orm.specs.Sets.{limits_of_role, limits_of_group, group_roles};
ghost use Rattle.orm.specs.Sets.{limit_of_rows, limits_of_pred, placed};
ghost use Rattle.buffer.specs.Written.{Wrote};
ghost use Rattle.limits.specs.Encoded.{Encoded, product_limit};
ghost use Rattle.table.specs.Positions.{role_width, wide_role, diagram_of, Walkable};
ghost use Rattle.table.specs.Cursors.{placed_at, Here};
ghost use Rattle.limits.specs.Single.{parts_in};

use crate::writer::{Writer, place};
use buffer::Output;
use lowering::Most;

// The set of the group with this number.
fn group_set(x: table::Cursor, number: u32) -> u32
    requires groups_bound { x.groups ≤ 208 }
    requires number_bound { number ≤ 999999 }
    ensures { result ≡ x.groups + (number - 1) }
{
    x.groups + number.saturating_sub(1)
}

// The limits of the role at position q, whose set is p.
fn push_role(t: &[u32], x: table::Cursor, p: u32, q: usize, out: &mut Writer<'_>)
    requires walkable { Walkable t.now }
    requires here { Here t.now x }
    requires role_width_in_bounds { q + role_width ≤ length t.now }
    ensures { Encoded out.old (limits_of_role (placed_at t.now x) p (wide_role (drop q t.now))) out.new }
{
    let a = table::number(t, q, 0).saturating_sub(1);
    let mandatory = table::number(t, q, 1) == 1;
    let group = table::number(t, q, 2);
    out.at_most(p, a);
    out.at_most(p, x.own);
    out.at_most_if(group != 0, p, group_set(x, group));
    out.at_most_if(mandatory, a, p);
}

// So many groups of the predicate, and the roles in its group with this number; 0: in no group.
fn push_parts(t: &[u32], x: table::Cursor, groups: u32, number: u32, out: &mut Output<'_, u32>)
    requires walkable { Walkable t.now }
    requires here { Here t.now x }
    requires groups { groups ≤ get_or (drop x.at t.now) 3 0 }
    ensures { Wrote out.old (parts_in (placed_at t.now x) groups number) out.new }
{
    selection::push_up(x.groups, groups, out);
    selection::push_in_group(t, x, number, out);
}

// The one of them, where they are one.
fn only_part(t: &[u32], x: table::Cursor, groups: u32, number: u32) -> u32
    requires walkable { Walkable t.now }
    requires here { Here t.now x }
    requires groups { groups ≤ get_or (drop x.at t.now) 3 0 }
    requires one { length (parts_in (placed_at t.now x) groups number) ≡ 1 }
    ensures { result ≡ slice_index (parts_in (placed_at t.now x) groups number) 0 }
{
    let mut set = [0u32; 1];
    let mut only = Output::new(&mut set);
    push_parts(t, x, groups, number, &mut only);
    set[0]
}

// Their product, as a limit.
fn push_product(
    t: &[u32],
    x: table::Cursor,
    target: u32,
    groups: u32,
    number: u32,
    out: &mut Writer<'_>,
)
    requires walkable { Walkable t.now }
    requires here { Here t.now x }
    requires groups { groups ≤ get_or (drop x.at t.now) 3 0 }
    ensures { Encoded out.old (product_limit target (parts_in (placed_at t.now x) groups number) ∷ []) out.new }
{
    if groups + selection::count_in_group(t, x, number) == 1 {
        out.at_most(target, only_part(t, x, groups, number));
        return;
    }
    let from = place(out.operands.at);
    push_parts(t, x, groups, number, &mut out.operands);
    let to = place(out.operands.at);
    out.push(target, Most::Product { from, to });
}

// The limits of the group with this number, whose line is at position q.
fn push_group(t: &[u32], x: table::Cursor, number: u32, q: usize, out: &mut Writer<'_>)
    requires walkable { Walkable t.now }
    requires here { Here t.now x }
    requires number_bound { number ≤ get_or (drop x.at t.now) 3 0 }
    requires q_in_bounds { q + 2 ≤ length t.now }
    ensures { Encoded out.old (limits_of_group (placed_at t.now x) number (group_of (drop q t.now))) out.new }
{
    let set = group_set(x, number);
    out.at_most_times(x.own, table::number(t, q, 1), set);
    out.at_most_quotient(set, x.own, table::number(t, q, 0));
    push_product(t, x, set, 0, number, out);
}

// The product of the groups and ungrouped roles, as the predicate's limit.
fn push_rows(t: &[u32], x: table::Cursor, out: &mut Writer<'_>)
    requires walkable { Walkable t.now }
    requires here { Here t.now x }
    ensures { Encoded out.old (limit_of_rows (placed_at t.now x) ∷ []) out.new }
{
    push_product(t, x, x.own, table::number(t, x.at, 3), 0, out);
}

fn push_role_limits(t: &[u32], x: table::Cursor, out: &mut Writer<'_>)
    requires walkable { Walkable t.now }
    requires here { Here t.now x }
    ensures { Encoded out.old (flatten (map_from (limits_of_role (placed_at t.now x)) x.roles (placed_at t.now x).predicate.roles)) out.new }
{
    let q = table::roles_at(t, x.at);
    for i in 0..table::number(t, x.at, 2) {
        push_role(t, x, x.roles + i, q + table::ROLE_WIDTH * i as usize, out);
    }
}

fn push_group_limits(t: &[u32], x: table::Cursor, out: &mut Writer<'_>)
    requires walkable { Walkable t.now }
    requires here { Here t.now x }
    ensures { Encoded out.old (flatten (map_from (limits_of_group (placed_at t.now x)) 1 (placed_at t.now x).predicate.groups)) out.new }
{
    let q = table::groups_at(t, x.at);
    for i in 0..table::number(t, x.at, 3) {
        push_group(t, x, 1 + i, q + 2 * i as usize, out);
    }
}

// The limits of the predicate at x.
fn push_pred(t: &[u32], x: table::Cursor, out: &mut Writer<'_>)
    requires walkable { Walkable t.now }
    requires here { Here t.now x }
    ensures { Encoded out.old (limits_of_pred (placed_at t.now x)) out.new }
{
    push_role_limits(t, x, out);
    push_group_limits(t, x, out);
    push_rows(t, x, out);
}

pub fn push_preds(t: &[u32], roles: u32, out: &mut Writer<'_>)
    requires walkable { Walkable t.now }
    requires roles_value { roles ≡ length (all_roles (diagram_of t.now)) }
    ensures { Encoded out.old (flat_map limits_of_pred (placed (diagram_of t.now))) out.new }
{
    let mut x = table::first_cursor(t, roles);
    for _ in 0..table::pred_count(t) {
        push_pred(t, x, out);
        x = table::next_cursor(t, x);
    }
}
