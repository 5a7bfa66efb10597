// The limits of the types.
ghost use Rattle.std.specs.Prelude.{◌≡◌, ◌+◌, ◌≤◌, ◌<◌, length, drop};
ghost use mathlib.Core.List.{[], ◌∷◌, flatten};
ghost use Rattle.counting.specs.Lists.{map_from};
ghost use Rattle.orm.specs.Form.{type_of};
ghost use Rattle.orm.specs.Sets.{limits_of_type};
ghost use Rattle.limits.specs.Encoded.{Encoded, sum_limit};
ghost use Rattle.table.specs.Positions.{diagram_of, Walkable};
ghost use Rattle.selection.specs.Selected.{positions};
ghost use Rattle.limits.specs.Single.{Played};

use crate::writer::{Writer, place};
use lowering::Most;
use selection::players::must_play;

// The sum of the roles that the type with the set a plays, as its limit; `types` are those of all roles, and
// `first` is the first role's set.
fn push_sum(types: &[u32], first: u32, a: u32, out: &mut Writer<'_>)
    requires types_bound { first + length types.now ≤ 160 }
    requires a_bound { a ≤ 32 }
    ensures { Encoded out.old (sum_limit a (positions (a + 1) first types.now) ∷ []) out.new }
{
    let from = place(out.operands.at);
    selection::push_of_type(types, a + 1, first, &mut out.operands);
    let to = place(out.operands.at);
    out.push(a, Most::Sum { from, to });
}

// The limits of the type at position q, whose set is a.
fn push_type(t: &[u32], types: &[u32], first: u32, a: u32, q: usize, out: &mut Writer<'_>)
    requires walkable { Walkable t.now }
    requires played { Played t.now types.now first }
    requires a_bound { a ≤ 32 }
    requires q_in_bounds { q + 6 ≤ length t.now }
    ensures { Encoded out.old (limits_of_type (diagram_of t.now) a (type_of (drop q t.now))) out.new }
{
    let super_type = table::number(t, q, 4);
    out.at_most_if(super_type != 0, a, super_type.saturating_sub(1));
    let own = selection::count_of_type(types, a + 1);
    if must_play(t, q, a + 1, 0 < own) {
        push_sum(types, first, a, out);
    }
}

pub fn push_types(t: &[u32], types: &[u32], first: u32, out: &mut Writer<'_>)
    requires walkable { Walkable t.now }
    requires played { Played t.now types.now first }
    ensures { Encoded out.old (flatten (map_from (limits_of_type (diagram_of t.now)) 0 (diagram_of t.now).types)) out.new }
{
    for a in 0..table::type_count(t) {
        push_type(t, types, first, a, 2 + 6 * a as usize, out);
    }
}
