// The check: the sizes of a diagram's sets, from its table. The table is widened, the bounds and
// limits of the sets are written into local arrays, and the rounds run over them.
#![tactic(auto)]

mod narrowing;

ghost use Rattle.std.specs.Prelude.{◌≡◌, ◌≤◌, length};
ghost use Rattle.fixpoint.specs.Limits.{fixpoint, run};
ghost use Rattle.lowering.specs.Coded.{limits_of};
ghost use Rattle.dependents.specs.Dependents.{operand_count};
ghost use Rattle.rounds.specs.Answer.{Bounds, Scratch};
ghost use Rattle.limits.specs.Prepared.{ValidTotals};
ghost use Rattle.orm.specs.Sets.{set_count};
ghost use Rattle.orm.specs.Outcome.{buffer_after, written, handed_back};
ghost use Rattle.orm.specs.Calls.{settled_into, check_call};
ghost use Rattle.table.specs.Positions.{diagram_of};
ghost use Rattle.bounds.specs.Start.{lower_by, upper_by, Starts, Posed};
ghost use Rattle.bounds.specs.Answer.{settlement_of, Answered, unchanged, checked, Takes, Space};

use crate::narrowing::narrow;
use dependents::{Links, Use};
use limits::Writer;
use lowering::Limits;
use refusals::Refusal;
use rounds::Rounds;
use widening::MOST_NUMBERS;

// What a check, or any call that makes something of the settled sizes, wrote to the front of the buffer:
// the length of its result, and the rounds that led there. It refuses the table (1 to 6), a diagram of
// which a set is emptied (7), and a buffer that is too short for the result (8).
#[derive(Clone, Copy, Debug, PartialEq, Eq)]
pub struct Written {
    pub length: usize,
    pub rounds: u32,
}

// The bounds that the rounds start from: the diagram's own, or these with the set at this index kept to
// one size.
#[derive(Clone, Copy, Debug, PartialEq, Eq)]
pub enum Start {
    Own,
    Kept { set: usize, size: u32 },
}

// What is to be settled of a diagram with so many roles and groups.
#[derive(Clone, Copy, Debug, PartialEq, Eq)]
struct Problem {
    roles: u32,
    groups: u32,
    start: Start,
}

// ---- the rounds

// The sizes go to the front of the buffer if it is long enough.
fn fit(res: &[u32], rounds: u32, sizes: &mut [u32]) -> Result<Written, Refusal>
    ensures { Answered (settled_into 7 unchanged (fixpoint rounds res.now) (length sizes.old)) result
        sizes.old sizes.new }
{
    if sizes.len() < res.len() {
        return Err(Refusal::TooShort { needed: res.len() });
    }
    buffer::copy(res, &mut sizes[..res.len()]);
    Ok(Written {
        length: res.len(),
        rounds,
    })
}

// The rounds from these bounds, and their end; `links` is scratch.
fn settle(
    limits: &Limits<'_>,
    lower: &[u32],
    rounds: &mut Rounds<'_>,
    links: &mut Links<'_>,
    sizes: &mut [u32],
) -> Result<Written, Refusal>
    requires bounds { Bounds limits.now lower.now rounds.old.upper.now }
    requires scratch { Scratch limits.now rounds.old links.old }
    ensures { Answered
        (settled_into 7 unchanged (run (limits_of limits.now) lower.now rounds.old.upper.now)
        (length sizes.old)) result sizes.old sizes.new }
{
    match rounds.settle(limits, lower, links) {
        Err(emptied) => Err(Refusal::Emptied {
            set: emptied.set + 1,
            round: emptied.round,
        }),
        Ok(count) => fit(rounds.upper, count, sizes),
    }
}

// The rounds from what these bounds are narrowed to; `next`, `changed` and `links` are scratch.
fn settle_from(
    start: Start,
    limits: &Limits<'_>,
    lower: &mut [u32],
    upper: &mut [u32],
    next: &mut [u32],
    changed: &mut [usize],
    links: &mut Links<'_>,
    sizes: &mut [u32],
) -> Result<Written, Refusal>
    requires starts { Starts start (length upper.old) }
    requires bounds { Bounds limits.now (lower_by start lower.old) (upper_by start upper.old) }
    requires next_room { length upper.old ≡ length next.old }
    requires changed_room { length upper.old ≤ length changed.old }
    requires last_room { length links.old.last.now ≡ length upper.old }
    requires uses_room { operand_count (limits_of limits.now) ≤ length links.old.uses.now }
    ensures { Answered
        (settled_into 7 unchanged
        (run (limits_of limits.now) (lower_by start lower.old) (upper_by start upper.old))
        (length sizes.old)) result sizes.old sizes.new }
{
    narrow(start, lower, upper);
    let mut rounds = Rounds {
        upper,
        next,
        changed,
    };
    settle(limits, lower, &mut rounds, links, sizes)
}

// ---- the check of a valid table

// What stands between the problem and the sizes is scratch, `next` first for the types of the roles; each array is lent on by itself.
fn check_in(
    t: &[u32],
    problem: Problem,
    out: &mut Writer<'_>,
    lower: &mut [u32],
    upper: &mut [u32],
    next: &mut [u32],
    changed: &mut [usize],
    last: &mut [usize],
    uses: &mut [Use],
    sizes: &mut [u32],
) -> Result<Written, Refusal>
    requires posed { Posed t.now problem }
    requires space { Space t.now out.old lower.old upper.old next.old changed.old last.old uses.old }
    ensures { Answered (checked problem.start t.now (length sizes.old)) result sizes.old sizes.new }
{
    let n = limits::prepare(t, problem.roles, problem.groups, next, out, lower, upper);
    let limits = out.limits();
    let mut links = Links {
        last: &mut last[..n],
        uses,
    };
    settle_from(
        problem.start,
        &limits,
        &mut lower[..n],
        &mut upper[..n],
        &mut next[..n],
        changed,
        &mut links,
        sizes,
    )
}

// Sets aside scratch for so many limits, operands of products and sums, sets and operands in all.
fn check_within<const LIMITS: usize, const OPERANDS: usize, const SETS: usize, const USES: usize>(
    t: &[u32],
    problem: Problem,
    sizes: &mut [u32],
) -> Result<Written, Refusal>
    requires posed { Posed t.now problem }
    requires takes { Takes t.now LIMITS OPERANDS SETS USES }
    ensures { Answered (checked problem.start t.now (length sizes.old)) result sizes.old sizes.new }
{
    let mut limits = [limits::NO_LIMIT; LIMITS];
    let mut operands = [0u32; OPERANDS];
    let mut lower = [0u32; SETS];
    let mut upper = [0u32; SETS];
    let mut next = [0u32; SETS];
    let mut changed = [0usize; SETS];
    let mut last = [0usize; SETS];
    let mut uses = [NO_USE; USES];
    let mut out = Writer::new(&mut limits, &mut operands);
    check_in(
        t,
        problem,
        &mut out,
        &mut lower,
        &mut upper,
        &mut next,
        &mut changed,
        &mut last,
        &mut uses,
        sizes,
    )
}

// No operand as yet.
const NO_USE: Use = Use {
    before: 0,
    limit: 0,
};

// Writes the sizes of the sets of a valid table's diagram, which has so many roles and groups, from these
// bounds.
pub fn check_valid(
    t: &[u32],
    roles: usize,
    groups: usize,
    start: Start,
    sizes: &mut [u32],
) -> Result<Written, Refusal>
    requires valid_totals { ValidTotals t.now roles groups }
    requires starts { Starts start (set_count (diagram_of t.now)) }
    ensures { Answered (checked start t.now (length sizes.old)) result sizes.old sizes.new }
{
    let problem = Problem {
        roles: limits::count(roles),
        groups: limits::count(groups),
        start,
    };
    // Clearing as much for a short table as for every table takes longer than its rounds.
    if t.len() <= 64 {
        return check_within::<96, 192, 32, 256>(t, problem, sizes);
    }
    check_within::<{ limits::MOST_LIMITS }, { limits::MOST_OPERANDS }, { limits::MOST_SETS }, 1280>(
        t, problem, sizes,
    )
}

// ---- the check

// Writes the sizes of the sets of a table's diagram, in set order.
pub fn check(table: &[u32], sizes: &mut [u32]) -> Result<Written, Refusal>
    ensures result_value { settlement_of result ≡ handed_back (check_call table.now (length sizes.old)) }
    ensures sizes_after { sizes.new
        ≡ buffer_after (written (check_call table.now (length sizes.old))) sizes.old }
{
    let mut wide = [0; MOST_NUMBERS];
    let widened = widening::accept(table, &mut wide)?;
    check_valid(
        &wide[..widened.length],
        widened.roles,
        widened.groups,
        Start::Own,
        sizes,
    )
}
