// The places: which line comes next, and the place with so many lines of a kind left.
ghost use Rattle.std.specs.Prelude.{◌≡◌, ◌≤◌, length};
ghost use Rattle.orm.specs.Diagram.{role_line_of};
ghost use Rattle.lexer.specs.Cuts.{kind_of, fields_of};
ghost use Rattle.grammar.specs.Awaited.{role_fields_of, types_from, preds_from, groups_from, roles_from, counts_of, block_of, kind_at, fields_at, is_going, counts_at};

use crate::{Awaited, Block, Counts};
use lexer::Kind;

// A role line in a diagram of this kind.
#[tactic(auto, unfolding(orm::specs::Diagram::role_line_of, orm::specs::Diagram::limits_roles))]
pub fn role_kind(kind: usize) -> Kind
    ensures result_value { kind_of result ≡ role_line_of kind }
    ensures result_value_2 { fields_of result ≡ role_fields_of kind }
{
    if kind == 2 {
        Kind::LimitedRoleLine
    } else {
        Kind::RoleLine
    }
}

// The kind of the line that comes next; behind the last line it does not matter.
pub fn kind_at(place: Awaited) -> Kind
    ensures result_value { kind_of result ≡ kind_at place }
    ensures result_value_2 { fields_of result ≡ fields_at place }
{
    match place {
        Awaited::AtDiagram => Kind::DiagramLine,
        Awaited::AtTypes { .. } => Kind::TypesLine,
        Awaited::AtType { .. } => Kind::TypeLine,
        Awaited::AtPreds { .. } => Kind::PredsLine,
        Awaited::AtPred { .. } => Kind::PredLine,
        Awaited::AtRole { block, .. } => role_kind(block.counts.kind),
        Awaited::AtFreq { .. } => Kind::FreqLine,
        Awaited::AtEnd { .. } | Awaited::Over { .. } => Kind::EndLine,
    }
}

// Whether a line is still to come.
pub fn is_going(place: Awaited) -> bool
    ensures { result ≡ is_going place }
{
    !matches!(place, Awaited::Over { .. })
}

// The counts at the end; before it none.
pub fn counts_at(place: Awaited) -> Counts
    ensures { result ≡ counts_at place }
{
    match place {
        Awaited::Over { counts } => counts,
        _ => counts_of(0, 0, 0),
    }
}

// The place with `left` more type lines, the first of which is number `own`.
pub fn types_from(kind: usize, types: usize, own: usize, left: usize) -> Awaited
    ensures { result ≡ types_from kind types own left }
{
    if left == 0 {
        Awaited::AtPreds { kind, types }
    } else {
        Awaited::AtType {
            kind,
            types,
            own,
            left: left - 1,
        }
    }
}

// The place where as many predicates are still to come as the counts say.
pub fn preds_from(counts: Counts) -> Awaited
    ensures { result ≡ preds_from counts }
{
    if counts.left == 0 {
        Awaited::AtEnd { counts }
    } else {
        let left = counts.left - 1;
        Awaited::AtPred {
            counts: Counts { left, ..counts },
        }
    }
}

// The place with `left` more freq lines, the first of which is number `own`.
pub fn groups_from(block: Block, own: usize, left: usize) -> Awaited
    ensures { result ≡ groups_from block own left }
{
    if left == 0 {
        preds_from(block.counts)
    } else {
        Awaited::AtFreq {
            block,
            own,
            left: left - 1,
        }
    }
}

// The place with `left` more role lines.
pub fn roles_from(block: Block, left: usize) -> Awaited
    ensures { result ≡ roles_from block left }
{
    if left == 0 {
        groups_from(block, 1, block.groups)
    } else {
        Awaited::AtRole {
            block,
            left: left - 1,
        }
    }
}

// Before any predicate.
pub fn counts_of(kind: usize, types: usize, preds: usize) -> Counts
    ensures { result ≡ counts_of kind types preds }
{
    Counts {
        kind,
        types,
        preds,
        left: preds,
        roles: 0,
        groups: 0,
    }
}

// The predicate of a `pred` line, whose roles' numbers start at `first`.
pub fn block_of(counts: Counts, first: usize, line: &[u32]) -> Block
    requires roles_bound { (counts.roles ≤ 96) × (counts.groups ≤ 48) }
    requires line_len { length line.now ≡ 4 }
    ensures { result ≡ block_of counts first line.now }
{
    let roles = line[2] as usize;
    let groups = line[3] as usize;
    Block {
        counts: Counts {
            roles: counts.roles + roles,
            groups: counts.groups + groups,
            ..counts
        },
        first,
        roles,
        groups,
    }
}
