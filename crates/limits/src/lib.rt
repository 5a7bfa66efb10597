// What the rounds of a valid table's diagram start from: the lower and upper bounds of its sets and the
// limits between them, written into lent arrays.
#![tactic(auto)]

mod preds;
mod ranges;
mod roles;
mod types;
mod writer;

ghost use Rattle.std.specs.Prelude.{◌≡◌, ◌≤◌, length, replicate};
ghost use Rattle.orm.specs.Diagram.{all_roles, all_groups};
ghost use Rattle.orm.specs.Sets.{lower, upper, limits};
ghost use Rattle.selection.specs.Selected.{types_of, Types};
ghost use Rattle.limits.specs.Encoded.{Encoded};
ghost use Rattle.buffer.specs.Written.{WroteAll};
ghost use Rattle.table.specs.Positions.{diagram_of, Walkable};
ghost use Rattle.limits.specs.Prepared.{most_sets, ValidTotals, Listable, types_in, Roomy, Prepared};

use crate::preds::push_preds;
use crate::ranges::{push_pred_lowers, push_pred_uppers, push_type_lowers, push_type_uppers};
use crate::roles::{push_role_lowers, push_role_uppers};
use crate::types::push_types;
use buffer::Output;
use lowering::{Limit, Most};
pub use writer::Writer;

// No diagram has more sets, more limits, or more operands of products and sums.
pub const MOST_SETS: usize = 208;

pub const MOST_LIMITS: usize = 624;

pub const MOST_OPERANDS: usize = 768;

// No limit as yet.
pub const NO_LIMIT: Limit = Limit {
    target: 0,
    most: Most::Size { set: 0 },
};

// Room for a number of each set of every diagram.
pub fn set_space() -> [u32; MOST_SETS]
    ensures { result ≡ replicate most_sets 0 }
{
    [0u32; MOST_SETS]
}

// A number of roles or groups.
pub fn count(x: usize) -> u32
    requires { x ≤ 96 }
    ensures { result ≡ x }
{
    x as u32
}

// The lower bounds of all sets of a table with so many groups.
fn write_lower(t: &[u32], groups: u32, buffer: &mut [u32]) -> usize
    requires walkable { Walkable t.now }
    requires groups_value { groups ≡ length (all_groups (diagram_of t.now)) }
    ensures { WroteAll buffer.old (lower (diagram_of t.now)) buffer.new result }
{
    let mut out = Output::new(buffer);
    push_type_lowers(&mut out, t);
    push_pred_lowers(&mut out, t);
    push_role_lowers(&mut out, t);
    out.fill(groups, 1);
    out.at
}

// The upper bounds that the rounds start from.
pub fn write_upper(t: &[u32], groups: u32, buffer: &mut [u32]) -> usize
    requires walkable { Walkable t.now }
    requires groups_value { groups ≡ length (all_groups (diagram_of t.now)) }
    ensures { WroteAll buffer.old (upper (diagram_of t.now)) buffer.new result }
{
    let mut out = Output::new(buffer);
    push_type_uppers(&mut out, t);
    push_pred_uppers(&mut out, t);
    push_role_uppers(&mut out, t);
    out.fill(groups, 4096);
    out.at
}

// The limits of all sets of a table with so many roles, with the types of all roles at hand.
fn write_limits(t: &[u32], roles: u32, types: &[u32], out: &mut Writer<'_>)
    requires walkable { Walkable t.now }
    requires roles_value { roles ≡ length (all_roles (diagram_of t.now)) }
    requires types { Types t.now types.now }
    ensures { Encoded out.old (limits (diagram_of t.now)) out.new }
{
    push_preds(t, roles, out);
    push_types(t, types, table::first_role(t), out);
}

// The types of all roles.
fn write_types(t: &[u32], buffer: &mut [u32]) -> usize
    requires { Walkable t.now }
    ensures { WroteAll buffer.old (types_of (all_roles (diagram_of t.now))) buffer.new result }
{
    let mut out = Output::new(buffer);
    selection::push_all_types(t, &mut out);
    out.at
}

// The limits of the diagram of a table with so many roles; `types` is scratch for the types of these.
pub fn limits_of(t: &[u32], roles: u32, types: &mut [u32], out: &mut Writer<'_>)
    requires { Listable t.now roles types.old }
    ensures encoded { Encoded out.old (limits (diagram_of t.now)) out.new }
    ensures types_after { types.new ≡ types_in t.now types.old }
{
    let n = write_types(t, types);
    write_limits(t, roles, &types[..n], out);
}

// The limits and bounds of the diagram of a table with so many roles and groups, the bounds at the fronts of
// `lower` and `upper`, and how many sets there are; `types` is scratch for the types of the roles.
pub fn prepare(
    t: &[u32],
    roles: u32,
    groups: u32,
    types: &mut [u32],
    out: &mut Writer<'_>,
    lower: &mut [u32],
    upper: &mut [u32],
) -> usize
    requires valid_totals { ValidTotals t.now roles groups }
    requires roomy { Roomy t.now types.old lower.old upper.old }
    ensures { Prepared t.now types.old out.old lower.old upper.old result types.new out.new
        lower.new upper.new }
{
    limits_of(t, roles, types, out);
    write_lower(t, groups, lower);
    write_upper(t, groups, upper)
}
