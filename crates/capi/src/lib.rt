// The calls for programs in C: slices are a pointer and a length, and the answer is four numbers.
//
// Each function calls the one of the same name and stores its answer. include/legshorgan.h declares
// them.
#![tactic(auto)]

ghost use Rattle.std.specs.Prelude.{◌≡◌, length};
ghost use Rattle.orm.specs.Outcome.{length_of, buffer_after, written, handed_back};
ghost use Rattle.orm.specs.Calls.{read_call, check_call, populate_call, validate_call, write_call};
ghost use Rattle.orm.specs.Average.{average_call};
ghost use Rattle.orm.specs.Prescribe.{prescribe_call};
ghost use Rattle.orm.specs.SingleLimits.{start_call, lower_call, survey_call, bounds_of, found_of};
ghost use Rattle.counting.specs.Totals.{bit};
ghost use Rattle.reader.specs.Answer.{conversion_of};
ghost use Rattle.bounds.specs.Answer.{settlement_of};
ghost use Rattle.populate.specs.Answer.{cells_of};
ghost use Rattle.populate.specs.Demand3.{settled_sizes};
ghost use Rattle.averages.specs.Answer.{average_answer_of};
ghost use Rattle.validator.specs.Outcomes.{validate_of};
ghost use Rattle.propagation.specs.Answer.{propagation_of};
ghost use Rattle.capi.specs.Answers.{numbers, roundless, found_numbers, verdict_numbers, average_numbers, float_after};
ghost use Rattle.capi.specs.Told.{Told, ToldRead};
ghost use Rattle.capi.specs.Ended.{Divided};
ghost use Rattle.capi.specs.Prescribed.{PrescribedTold};
ghost use Rattle.capi.specs.Averaged.{AverageTold};

use averages::AverageUse;
use bounds::Written;
use faults::Verdict;
use propagation::Found;
use refusals::Refusal;

// ---- the four numbers of an answer

// Of the calls that run no rounds: reading, writing, and the bounds that the rounds start from.
#[tactic(auto, unfolding(crate::specs::Answers::numbers))]
fn of_length(outcome: Result<usize, Refusal>) -> [u64; 4]
    ensures { result ≡ numbers (roundless (conversion_of outcome)) }
{
    match outcome {
        Ok(length) => [0, 0, 0, length as u64],
        Err(refusal) => refusal.numbers(),
    }
}

// Of the calls that run the rounds: check, and populating.
#[tactic(auto, unfolding(crate::specs::Answers::numbers))]
fn of_written(outcome: Result<Written, Refusal>) -> [u64; 4]
    ensures { result ≡ numbers (settlement_of outcome) }
{
    match outcome {
        Ok(written) => [0, 0, written.rounds as u64, written.length as u64],
        Err(refusal) => refusal.numbers(),
    }
}

// Of the calls that put single limits to use, or ask whether any would lower a bound.
#[tactic(auto, unfolding(crate::specs::Answers::found_numbers))]
fn of_found(outcome: Result<Found, Refusal>) -> [u64; 4]
    ensures { result ≡ found_numbers (propagation_of outcome) }
{
    match outcome {
        Ok(found) => [0, 0, of_bool(found.lowers), found.count as u64],
        Err(refusal) => refusal.numbers(),
    }
}

// Of validating, which runs no rounds.
#[tactic(auto, unfolding(crate::specs::Answers::verdict_numbers))]
fn of_verdict(outcome: Result<Verdict, Refusal>) -> [u64; 4]
    ensures { result ≡ verdict_numbers (validate_of outcome) }
{
    match outcome {
        Ok(Verdict::Valid) => [0, 0, 0, 0],
        Ok(Verdict::Breaks { constraint, number }) => [0, 0, constraint as u64, number as u64],
        Err(refusal) => {
            let numbers = refusal.numbers();
            [numbers[0], numbers[1], 0, 0]
        }
    }
}

fn of_bool(x: bool) -> u64
    ensures { result ≡ bit x }
{
    if x { 1 } else { 0 }
}

// The answer of the average use of a group; one that is no whole number goes to `quotient`.
fn store_average(answer: &mut [u64; 4], quotient: &mut f64, outcome: Result<AverageUse, Refusal>)
    ensures { Divided (average_answer_of outcome) answer.new quotient.old quotient.new }
{
    *answer = match outcome {
        Ok(AverageUse::Whole { times }) => [0, 0, 0, times as u64],
        Ok(AverageUse::Fraction { times }) => {
            *quotient = times;
            [0, 0, 1, 0]
        }
        Err(refusal) => refusal.numbers(),
    };
}

// ---- the calls

// The cells of the population of a table's diagram.
#[unsafe(no_mangle)]
pub extern "C" fn legshorgan_populate(table: &[u32], cells: &mut [u32], answer: &mut [u64; 4])
    ensures answer_after { answer.new ≡ numbers (handed_back (populate_call table.now (length cells.old))) }
    ensures cells_after { cells.new ≡ buffer_after (written (populate_call table.now (length cells.old))) cells.old }
    ensures told { Told table.now cells_of answer.new cells.old cells.new }
{
    *answer = of_written(populate::populate(table, cells));
}

// Reads a diagram from its text into its table.
#[unsafe(no_mangle)]
pub extern "C" fn legshorgan_read(text: &[u8], table: &mut [u32], answer: &mut [u64; 4])
    ensures answer_after { answer.new ≡ numbers (roundless (length_of (read_call text.now (length table.old)))) }
    ensures table_after { table.new ≡ buffer_after (read_call text.now (length table.old)) table.old }
    ensures told_read { ToldRead text.now answer.new table.old table.new }
{
    *answer = of_length(reader::read(text, table));
}

// The settled sizes of the sets of a table's diagram, in set order.
#[unsafe(no_mangle)]
pub extern "C" fn legshorgan_check(table: &[u32], sizes: &mut [u32], answer: &mut [u64; 4])
    ensures answer_after { answer.new ≡ numbers (handed_back (check_call table.now (length sizes.old))) }
    ensures sizes_after { sizes.new ≡ buffer_after (written (check_call table.now (length sizes.old))) sizes.old }
    ensures told { Told table.now settled_sizes answer.new sizes.old sizes.new }
{
    *answer = of_written(bounds::check(table, sizes));
}

// Whether cells are a population that meets the constraints of a table's diagram.
#[unsafe(no_mangle)]
pub extern "C" fn legshorgan_validate(table: &[u32], cells: &[u32], answer: &mut [u64; 4])
    ensures { answer.new ≡ verdict_numbers (validate_call table.now cells.now) }
{
    *answer = of_verdict(validator::validate(table, cells));
}

// Writes the text of a diagram from its table.
#[unsafe(no_mangle)]
pub extern "C" fn legshorgan_write(table: &[u32], text: &mut [u8], answer: &mut [u64; 4])
    ensures answer_after { answer.new ≡ numbers (roundless (length_of (write_call table.now (length text.old)))) }
    ensures text_after { text.new ≡ buffer_after (write_call table.now (length text.old)) text.old }
{
    *answer = of_length(writer::write(table, text));
}

// The upper bounds of the sets of a table's diagram that the rounds start from, in set order.
#[unsafe(no_mangle)]
pub extern "C" fn legshorgan_start(table: &[u32], sizes: &mut [u32], answer: &mut [u64; 4])
    ensures answer_after { answer.new ≡ numbers (roundless (length_of (start_call table.now (length sizes.old)))) }
    ensures sizes_after { sizes.new ≡ buffer_after (start_call table.now (length sizes.old)) sizes.old }
{
    *answer = of_length(propagation::start(table, sizes));
}

// Puts the limit of a table's diagram with this number to use on the upper bounds at the front of `sizes`.
#[unsafe(no_mangle)]
pub extern "C" fn legshorgan_lower(
    table: &[u32],
    number: u32,
    sizes: &mut [u32],
    answer: &mut [u64; 4],
)
    ensures answer_after { answer.new ≡ found_numbers (found_of (lower_call table.now number sizes.old)) }
    ensures sizes_after { sizes.new ≡ buffer_after (bounds_of (lower_call table.now number sizes.old)) sizes.old }
{
    *answer = of_found(propagation::lower(table, number, sizes));
}

// Whether any limit of a table's diagram lowers one of the upper bounds at the front of `sizes`.
#[unsafe(no_mangle)]
pub extern "C" fn legshorgan_survey(table: &[u32], sizes: &[u32], answer: &mut [u64; 4])
    ensures { answer.new ≡ found_numbers (survey_call table.now sizes.now) }
{
    *answer = of_found(propagation::survey(table, sizes));
}

// The cells of a population in which the set with this number has just the wanted size.
#[unsafe(no_mangle)]
pub extern "C" fn legshorgan_prescribe(
    table: &[u32],
    set: u32,
    wanted: u32,
    cells: &mut [u32],
    answer: &mut [u64; 4],
)
    ensures answer_after { answer.new ≡ numbers (handed_back (prescribe_call table.now set wanted (length cells.old))) }
    ensures cells_after { cells.new ≡ buffer_after (written (prescribe_call table.now set wanted (length cells.old))) cells.old }
    ensures prescribed_told { PrescribedTold table.now set wanted answer.new cells.old cells.new }
{
    *answer = of_written(prescription::prescribe(table, set, wanted, cells));
}

// How many rows there are on average for each combination of the group with this set number: a whole number
// in the answer, or else a float in `quotient`.
#[unsafe(no_mangle)]
pub extern "C" fn legshorgan_average(
    table: &[u32],
    set: u32,
    quotient: &mut f64,
    answer: &mut [u64; 4],
)
    ensures answer_after { answer.new ≡ average_numbers (average_call table.now set) }
    ensures quotient_after { quotient.new ≡ float_after (average_call table.now set) quotient.old }
    ensures average_told { AverageTold table.now set answer.new quotient.old quotient.new }
{
    store_average(answer, quotient, averages::average(table, set));
}
