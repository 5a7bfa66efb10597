// Populating: from a table the cells of its population (document 01: the fill). The sizes of its sets
// are the check's; of the check only its promise is used.
#![tactic(auto)]

ghost use Rattle.std.specs.Prelude.{◌≡◌, length};
ghost use Rattle.orm.specs.Sets.{set_count};
ghost use Rattle.orm.specs.Outcome.{buffer_after, written, handed_back};
ghost use Rattle.orm.specs.Calls.{populate_call};
ghost use Rattle.limits.specs.Prepared.{most_sets, ValidTotals};
ghost use Rattle.table.specs.Positions.{diagram_of};
ghost use Rattle.table.specs.Valid.{Valid};
ghost use Rattle.tuples.specs.Steps.{Small};
ghost use Rattle.bounds.specs.Start.{Starts};
ghost use Rattle.bounds.specs.Answer.{settlement_of, Answered};
ghost use Rattle.populate.specs.Answer.{filled, populated};

use bounds::{Start, Written};
use refusals::Refusal;
use widening::MOST_NUMBERS;

// Writes the cells of the population that a valid table's diagram has with these sizes, to which so many
// rounds led.
pub fn populate_settled(
    t: &[u32],
    sizes: &[u32],
    rounds: u32,
    cells: &mut [u32],
) -> Result<Written, Refusal>
    requires valid { Valid t.now }
    requires small { Small sizes.now }
    ensures { Answered (filled t.now rounds sizes.now (length cells.old)) result cells.old
        cells.new }
{
    let needed = population::cell_count(t, sizes);
    if cells.len() < needed {
        return Err(Refusal::TooShort { needed });
    }
    population::write_cells(t, sizes, cells);
    Ok(Written {
        length: needed,
        rounds,
    })
}

// The check's refusals are handed on; `sizes` is scratch.
fn populate_in(
    t: &[u32],
    roles: usize,
    groups: usize,
    start: Start,
    sizes: &mut [u32],
    cells: &mut [u32],
) -> Result<Written, Refusal>
    requires valid_totals { ValidTotals t.now roles groups }
    requires starts { Starts start (set_count (diagram_of t.now)) }
    requires sizes_len { length sizes.old ≡ most_sets }
    ensures { Answered (populated start t.now (length cells.old)) result cells.old cells.new }
{
    let settled = bounds::check_valid(t, roles, groups, start, sizes)?;
    populate_settled(t, &sizes[..settled.length], settled.rounds, cells)
}

// Writes the cells of a valid table's population, with the sizes that the rounds from these bounds settle
// on; its diagram has so many roles and groups.
pub fn populate_valid(
    t: &[u32],
    roles: usize,
    groups: usize,
    start: Start,
    cells: &mut [u32],
) -> Result<Written, Refusal>
    requires valid_totals { ValidTotals t.now roles groups }
    requires starts { Starts start (set_count (diagram_of t.now)) }
    ensures { Answered (populated start t.now (length cells.old)) result cells.old cells.new }
{
    let mut sizes = limits::set_space();
    populate_in(t, roles, groups, start, &mut sizes, cells)
}

// Writes the cells of a table's population. It refuses the table (1 to 6), a diagram of which a set is
// emptied (7), and a buffer that is too short for the cells (8).
pub fn populate(table: &[u32], cells: &mut [u32]) -> Result<Written, Refusal>
    ensures result_value { settlement_of result ≡ handed_back (populate_call table.now (length cells.old)) }
    ensures cells_after { cells.new
        ≡ buffer_after (written (populate_call table.now (length cells.old))) cells.old }
{
    let mut wide = [0; MOST_NUMBERS];
    let widened = widening::accept(table, &mut wide)?;
    populate_valid(
        &wide[..widened.length],
        widened.roles,
        widened.groups,
        Start::Own,
        cells,
    )
}
