// A population in which one set has just so many members: populating, where the rounds start from bounds
// that keep this set to that size. Sets have numbers, from 1.
#![tactic(auto)]

ghost use Rattle.std.specs.Prelude.{◌≡◌, length};
ghost use Rattle.orm.specs.Diagram.{index};
ghost use Rattle.orm.specs.Outcome.{buffer_after, written, handed_back};
ghost use Rattle.orm.specs.Prescribe.{prescribe_call};
ghost use Rattle.orm.specs.Sets.{set_count};
ghost use Rattle.orm.specs.Meaning.{Between};
ghost use Rattle.table.specs.Positions.{diagram_of};
ghost use Rattle.limits.specs.Prepared.{ValidTotals};
ghost use Rattle.bounds.specs.Answer.{settlement_of, Answered};
ghost use Rattle.prescription.specs.Answer.{kept_at, numbered};

use bounds::{Start, Written};
use refusals::Refusal;
use widening::MOST_NUMBERS;

// Of a valid table with so many roles and groups: populates it with the set of this number kept to the
// wanted size.
fn keep(
    t: &[u32],
    roles: usize,
    groups: usize,
    number: usize,
    wanted: u32,
    cells: &mut [u32],
) -> Result<Written, Refusal>
    requires valid_totals { ValidTotals t.now roles groups }
    requires between { Between 1 number (set_count (diagram_of t.now)) }
    ensures { Answered (kept_at t.now (index number) wanted (length cells.old)) result cells.old
        cells.new }
{
    let start = Start::Kept {
        set: number - 1,
        size: wanted,
    };
    let settled = populate::populate_valid(t, roles, groups, start, cells);
    match settled {
        Err(Refusal::Emptied { set, round }) => Err(Refusal::Impossible { set, round }),
        ended => ended,
    }
}

// Of a valid table with so many sets: one of them has the number, or it is refused.
fn prescribe_valid(
    t: &[u32],
    roles: usize,
    groups: usize,
    sets: usize,
    number: u32,
    wanted: u32,
    cells: &mut [u32],
) -> Result<Written, Refusal>
    requires valid_totals { ValidTotals t.now roles groups }
    requires sets_value { sets ≡ set_count (diagram_of t.now) }
    ensures { Answered (numbered t.now number wanted (length cells.old)) result cells.old
        cells.new }
{
    let asked = number as usize;
    if asked == 0 || sets < asked {
        return Err(Refusal::NoSuch { number });
    }
    keep(t, roles, groups, asked, wanted, cells)
}

// Writes the cells of a population of a table's diagram in which the set with this number has just the
// wanted size, and every other as many members as it then can. It refuses the table (1 to 6), a number
// that no set has (10), a size that no population has there (11, with the set that is emptied in its
// place), and a buffer that is too short for the cells (8).
pub fn prescribe(
    table: &[u32],
    number: u32,
    wanted: u32,
    cells: &mut [u32],
) -> Result<Written, Refusal>
    ensures result_value { settlement_of result ≡ handed_back (prescribe_call table.now number wanted (length cells.old)) }
    ensures cells_after { cells.new
        ≡ buffer_after (written (prescribe_call table.now number wanted (length cells.old))) cells.old }
{
    let mut wide = [0; MOST_NUMBERS];
    let widened = widening::accept(table, &mut wide)?;
    prescribe_valid(
        &wide[..widened.length],
        widened.roles,
        widened.groups,
        widened.set_count(),
        number,
        wanted,
        cells,
    )
}
