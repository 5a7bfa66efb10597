// Reading a diagram: from a text into its table, and over a table.
//
// Both go line by line, from place to place. Text and table differ in how the next line is cut off;
// the tests of a line are the same.
#![tactic(auto)]

mod walk;

ghost use Rattle.std.specs.Prelude.{◌≡◌, ◌≤◌, length, take};
ghost use Rattle.orm.specs.Text.{table_line};
ghost use Rattle.orm.specs.Outcome.{length_of, fitted, buffer_after};
ghost use Rattle.orm.specs.Calls.{diagram_in, read_call};
ghost use Rattle.reading.specs.WideTable.{most_numbers};
ghost use Rattle.reader.specs.Answer.{conversion_of, form_of, totalled};

use crate::walk::{read_lines, table_lines};
use grammar::Awaited;
use refusals::Refusal;

// No table is longer.
pub const MOST_NUMBERS: usize = 900;

// Lines count from 1.
const FIRST_LINE: usize = 1;

// Where a line leads: the next place, where what follows starts, and where the numbers so far end in
// the table.
#[derive(Clone, Copy, Debug, PartialEq, Eq)]
struct Reached {
    place: Awaited,
    at: usize,
    end: usize,
}

// How many types, predicates, roles and groups a diagram has.
#[derive(Clone, Copy, Debug, PartialEq, Eq)]
pub struct Totals {
    pub types: usize,
    pub preds: usize,
    pub roles: usize,
    pub groups: usize,
}

// A diagram whose lines are read to the end: the length of its table, and what it has.
#[derive(Clone, Copy, Debug, PartialEq, Eq)]
struct Whole {
    length: usize,
    totals: Totals,
}

// The first `n` numbers go to the front of the table, if it has room for them.
fn hand_out(n: usize, numbers: &[u32], table: &mut [u32]) -> Result<usize, Refusal>
    requires { n ≤ length numbers.now }
    ensures result_value { conversion_of result ≡ length_of (fitted (length table.old) (take n numbers.now)) }
    ensures table_after { table.new ≡ buffer_after (fitted (length table.old) (take n numbers.now)) table.old }
{
    if table.len() < n {
        return Err(Refusal::TooShort { needed: n });
    }
    buffer::copy(&numbers[..n], &mut table[..n]);
    Ok(n)
}

// Reads a text by way of `numbers`, so that a refused call leaves the table as it was.
fn read_by(text: &[u8], numbers: &mut [u32], table: &mut [u32]) -> Result<usize, Refusal>
    requires { length numbers.old ≡ most_numbers }
    ensures result_value { conversion_of result ≡ length_of (read_call text.now (length table.old)) }
    ensures table_after { table.new ≡ buffer_after (read_call text.now (length table.old)) table.old }
{
    let whole = read_lines(text, numbers)?;
    hand_out(whole.length, numbers, table)
}

// Reads a diagram from its text; its table goes to the front, and what is behind it stays. Answers the
// table's length, or refuses with 1 to 6, or with 8 where the table is too short; a refused call writes
// nothing.
pub fn read(text: &[u8], table: &mut [u32]) -> Result<usize, Refusal>
    ensures result_value { conversion_of result ≡ length_of (read_call text.now (length table.old)) }
    ensures table_after { table.new ≡ buffer_after (read_call text.now (length table.old)) table.old }
{
    let mut numbers = [0u32; MOST_NUMBERS];
    read_by(text, &mut numbers, table)
}

// Tells whether a table is that of a diagram: the whole of it, with nothing after the last line.
// Answers what the diagram has, or refuses with 1 to 6.
pub fn form(table: &[u32]) -> Result<Totals, Refusal>
    ensures { form_of result ≡ totalled (diagram_in table_line table.now) }
{
    let whole = table_lines(table)?;
    Ok(whole.totals)
}
