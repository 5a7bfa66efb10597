// Where a line of each kind leads, or its first fault. Only a `freq` line looks at the numbers before it, for the roles that name
// its group; of a `type` line it is handed in whether its FIRST and LAST may stand there, which the types before it decide.
ghost use Rattle.std.specs.Prelude.{◌≡◌, [], ◌≤◌, length};
ghost use Rattle.reading.specs.WideTable.{most_numbers};
ghost use Rattle.grammar.specs.declared.Awaited.TheVariants.{AtDiagram, AtTypes, AtPreds, AtRole, AtFreq, AtEnd};
ghost use Rattle.grammar.specs.Awaited.{role_fields_of};
ghost use Rattle.grammar.specs.Step.{step_of, step_at, type_step, pred_step};

use crate::places::{block_of, counts_of, groups_from, preds_from, roles_from, types_from};
use crate::tests::is_named;
use crate::verdicts::{
    count_verdict, end_verdict, freq_verdict, pred_verdict, role_verdict, type_verdict,
};
use crate::{Awaited, Block, Counts, Fault};
use lexer::Kind;

#[tactic(auto, unfolding(crate::specs::Step::step_at))]
pub fn diagram_line(line: &[u32]) -> Result<Awaited, Fault>
    requires { length line.now ≡ 1 }
    ensures { step_of result ≡ step_at AtDiagram [] line.now }
{
    count_verdict(Kind::DiagramLine, line)?;
    Ok(Awaited::AtTypes {
        kind: line[0] as usize,
    })
}

#[tactic(auto, unfolding(crate::specs::Step::step_at))]
pub fn types_line(kind: usize, line: &[u32]) -> Result<Awaited, Fault>
    requires { length line.now ≡ 1 }
    ensures { step_of result ≡ step_at (AtTypes kind) [] line.now }
{
    count_verdict(Kind::TypesLine, line)?;
    let count = line[0] as usize;
    Ok(types_from(kind, count, 1, count))
}

// The type with the number `own`; `ordered`: its FIRST and LAST may stand there.
pub fn type_line(
    kind: usize,
    types: usize,
    own: usize,
    left: usize,
    ordered: bool,
    line: &[u32],
) -> Result<Awaited, Fault>
    requires own_bound { own ≤ 32 }
    requires line_len { length line.now ≡ 6 }
    ensures { step_of result ≡ type_step kind types own left ordered line.now }
{
    type_verdict(own, ordered, line)?;
    Ok(types_from(kind, types, own + 1, left))
}

#[tactic(auto, unfolding(crate::specs::Step::step_at))]
pub fn preds_line(kind: usize, types: usize, line: &[u32]) -> Result<Awaited, Fault>
    requires { length line.now ≡ 1 }
    ensures { step_of result ≡ step_at (AtPreds kind types) [] line.now }
{
    count_verdict(Kind::PredsLine, line)?;
    Ok(preds_from(counts_of(kind, types, line[0] as usize)))
}

// A `pred` line after `read` numbers.
pub fn pred_line(counts: Counts, read: usize, line: &[u32]) -> Result<Awaited, Fault>
    requires roles_bound { (counts.roles ≤ 96) × (counts.groups ≤ 48) }
    requires read_le_most_numbers { read ≤ most_numbers }
    requires line_len { length line.now ≡ 4 }
    ensures { step_of result ≡ pred_step counts read line.now }
{
    pred_verdict(counts.roles, counts.groups, line)?;
    let block = block_of(counts, read + line.len(), line);
    Ok(roles_from(block, block.roles))
}

// It stands in the walk's loop: most lines are role lines.
#[tactic(auto, unfolding(crate::specs::Step::step_at))]
#[inline(always)]
pub fn role_line(block: Block, left: usize, line: &[u32]) -> Result<Awaited, Fault>
    requires { length line.now ≡ role_fields_of block.counts.kind }
    ensures { step_of result ≡ step_at (AtRole block left) [] line.now }
{
    role_verdict(block.counts.kind, block.counts.types, block.groups, line)?;
    Ok(roles_from(block, left))
}

// The group with the number `own`, after lines with the numbers `before`.
#[tactic(auto, unfolding(crate::specs::Step::step_at, orm::specs::Form::group_tests))]
pub fn freq_line(
    block: Block,
    own: usize,
    left: usize,
    before: &[u32],
    line: &[u32],
) -> Result<Awaited, Fault>
    requires first_le_most_numbers { (block.first ≤ most_numbers) × (block.roles ≤ 6) }
    requires own_bound { own ≤ 6 }
    requires line_len { length line.now ≡ 2 }
    ensures { step_of result ≡ step_at (AtFreq block own left) before.now line.now }
{
    let used = is_named(own, block.counts.kind, before, block.first, block.roles);
    freq_verdict(used, line)?;
    Ok(groups_from(block, own + 1, left))
}

#[tactic(auto, unfolding(crate::specs::Step::step_at))]
pub fn end_line(counts: Counts, line: &[u32]) -> Result<Awaited, Fault>
    requires { length line.now ≡ 1 }
    ensures { step_of result ≡ step_at (AtEnd counts) [] line.now }
{
    end_verdict(counts.roles, line)?;
    Ok(Awaited::Over { counts })
}
