// The average use of a group: how many rows of its predicate there are on average for each of its
// combinations, both as settled. A group is asked for by the number of its set, from 1.
#![tactic(auto)]

mod owner;

ghost use Rattle.std.specs.Prelude.{◌≡◌, ◌≤◌, ◌<◌, length};
ghost use Rattle.orm.specs.Outcome.{accepted};
ghost use Rattle.orm.specs.Sets.{set_count};
ghost use Rattle.orm.specs.Average.{average_of, average_call};
ghost use Rattle.table.specs.Positions.{diagram_of};
ghost use Rattle.limits.specs.Prepared.{most_sets, ValidTotals};
ghost use Rattle.averages.specs.Answer.{average_value, average_answer_of, Answered, settled_average, average_in};

use crate::owner::find;
use bounds::Start;
use refusals::Refusal;
use widening::MOST_NUMBERS;

// So many rows for each combination: a whole number where they divide evenly, else the float nearest to the
// quotient.
#[derive(Clone, Copy, Debug, PartialEq)]
pub enum AverageUse {
    Whole { times: u32 },
    Fraction { times: f64 },
}

// r divided by q.
fn divide(r: u32, q: u32) -> AverageUse
    requires { 1 ≤ q }
    ensures { average_value result ≡ average_of r q }
{
    if r % q == 0 {
        return AverageUse::Whole { times: r / q };
    }
    AverageUse::Fraction {
        times: r as f64 / q as f64,
    }
}

// Of a valid table: the settled size of the set at index r, divided by that at q; `sizes` is scratch.
fn average_settled(
    t: &[u32],
    roles: usize,
    groups: usize,
    r: usize,
    q: usize,
    sizes: &mut [u32],
) -> Result<AverageUse, Refusal>
    requires valid_totals { ValidTotals t.now roles groups }
    requires r_bound { r < set_count (diagram_of t.now) }
    requires q_bound { q < set_count (diagram_of t.now) }
    requires sizes_len { length sizes.old ≡ most_sets }
    ensures { Answered (settled_average (diagram_of t.now) r q) result }
{
    bounds::check_valid(t, roles, groups, Start::Own, sizes)?;
    Ok(divide(sizes[r], sizes[q]))
}

// Of a valid table with so many roles and groups: one of its groups has the number, or it is refused.
fn average_valid(t: &[u32], roles: usize, groups: usize, number: u32) -> Result<AverageUse, Refusal>
    requires { ValidTotals t.now roles groups }
    ensures { Answered (average_in (diagram_of t.now) number) result }
{
    let Some(own) = find(t, limits::count(roles), number) else {
        return Err(Refusal::NoSuch { number });
    };
    let mut sizes = limits::set_space();
    let group = number as usize - 1;
    average_settled(t, roles, groups, own as usize, group, &mut sizes)
}

// How many rows there are on average for each combination of the group with this number, of a table's
// diagram. It refuses the table (1 to 6), a number that no group has (10), and a diagram of which a set is
// emptied (7).
pub fn average(table: &[u32], number: u32) -> Result<AverageUse, Refusal>
    ensures { average_answer_of result ≡ average_call table.now number }
{
    let mut wide = [0; MOST_NUMBERS];
    let widened = widening::accept(table, &mut wide)?;
    average_valid(
        &wide[..widened.length],
        widened.roles,
        widened.groups,
        number,
    )
}
