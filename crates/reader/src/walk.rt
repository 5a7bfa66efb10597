// The walk over the lines of a text or of a table.
ghost use Rattle.std.specs.Prelude.{◌≡◌, true, ◌≤◌, length, drop, IfOk};
ghost use Rattle.std.proofs.lemmas.List.Edits.{sets};
ghost use Rattle.orm.specs.Text.{text_line, table_line};
ghost use Rattle.orm.specs.Calls.{diagram_in};
ghost use Rattle.reading.specs.WideTable.{most_numbers};
ghost use Rattle.lexer.specs.Cuts.{line_numbers};
ghost use Rattle.grammar.specs.Awaited.{kind_at, is_going};
ghost use Rattle.grammar.specs.Room.{Room};
ghost use Rattle.reader.specs.Reach.{line_of, step_from, refused_at};
ghost use Rattle.reader.specs.Lines.{whole_of, end_of, ended, lines_of, summarised};
ghost use Rattle.reader.specs.Written.{written};

use crate::{FIRST_LINE, Reached, Totals, Whole};
use grammar::places::{counts_at, is_going, kind_at};
use grammar::steps::check_at;
use grammar::{Awaited, Counts, Fault};
use lexer::lines::{fields_of, write_line};
use refusals::Refusal;

// The line of the text at `at`; its numbers go to the table at `end`, those before a fault too.
#[inline(always)]
fn text_step(
    place: Awaited,
    text: &[u8],
    at: usize,
    table: &mut [u32],
    end: usize,
) -> Result<Reached, Fault>
    requires room { Room place end }
    requires place_value { is_going place ≡ true }
    requires table_len { length table.old ≡ most_numbers }
    ensures result_after { line_of text.now table.new result ≡ step_from text_line place table.old end text.now at }
    ensures table_after { table.new ≡ sets table.old end (line_numbers (kind_at place) (drop at text.now)) }
{
    let kind = kind_at(place);
    let Some(next) = write_line(kind, text, at, table, end) else {
        return Err(Fault::Malformed);
    };
    let last = end + fields_of(kind);
    let place = check_at(place, table, end, last)?;
    Ok(Reached {
        place,
        at: next,
        end: last,
    })
}

// The line of the table at `at`.
#[inline(always)]
fn table_step(place: Awaited, table: &[u32], at: usize) -> Result<Reached, Fault>
    requires room { Room place at }
    requires place_value { is_going place ≡ true }
    requires at_in_bounds { at ≤ length table.now }
    ensures level { IfOk result (λ r. (r.at ≡ r.end) × (r.end ≤ length table.now)) }
    ensures result_value { line_of table.now table.now result ≡ step_from table_line place table.now at table.now at }
{
    let end = at + fields_of(kind_at(place));
    if table.len() < end {
        return Err(Fault::Malformed);
    }
    let place = check_at(place, table, at, end)?;
    Ok(Reached {
        place,
        at: end,
        end,
    })
}

// The refusal of the line with this number; the loops ask for it only where the line has a fault.
fn refusal(line: Result<Reached, Fault>, number: usize) -> Result<Whole, Refusal>
    ensures { result ≡ refused_at line number }
{
    let fault = match line {
        Ok(_) => Fault::Malformed,
        Err(fault) => fault,
    };
    Err(Refusal::Faulty {
        fault,
        line: number,
    })
}

// The whole diagram, of these counts, with the length of its table.
fn whole(counts: Counts, length: usize) -> Whole
    ensures { result ≡ whole_of counts length }
{
    Whole {
        length,
        totals: Totals {
            types: counts.types,
            preds: counts.preds,
            roles: counts.roles,
            groups: counts.groups,
        },
    }
}

// Reads a text; the numbers go to the front of the table, those before a fault too. Of a diagram they are its table.
// Line by line until the place is the end: `let .. else` with the line's number is the form that document 01 names.
pub fn read_lines(text: &[u8], table: &mut [u32]) -> Result<Whole, Refusal>
    requires { length table.old ≡ most_numbers }
    ensures result_value { end_of result ≡ ended (diagram_in text_line text.now) }
    ensures table_after { table.new ≡ sets table.old 0 (written text.now) }
    ensures inside { IfOk result (λ w. w.length ≤ most_numbers) }
    ensures result_after { lines_of table.new result ≡ summarised (diagram_in text_line text.now) }
{
    let mut place = Awaited::AtDiagram;
    let mut number = FIRST_LINE;
    let mut at = 0;
    let mut end = 0;
    while is_going(place) {
        let line = text_step(place, text, at, table, end);
        let Ok(
            Reached {
                place: next,
                at: behind,
                end: last,
            },
        ) = line
        else {
            return refusal(line, number);
        };
        place = next;
        at = behind;
        end = last;
        number += 1;
    }
    if at < text.len() {
        return Err(Refusal::Faulty {
            fault: Fault::Malformed,
            line: number,
        });
    }
    Ok(whole(counts_at(place), end))
}

// Reads a table; its position is where the numbers so far end.
pub fn table_lines(table: &[u32]) -> Result<Whole, Refusal>
    ensures result_value { end_of result ≡ ended (diagram_in table_line table.now) }
    ensures result_value_2 { lines_of table.now result ≡ summarised (diagram_in table_line table.now) }
{
    let mut place = Awaited::AtDiagram;
    let mut number = FIRST_LINE;
    let mut end = 0;
    while is_going(place) {
        let line = table_step(place, table, end);
        let Ok(
            Reached {
                place: next,
                at: _,
                end: last,
            },
        ) = line
        else {
            return refusal(line, number);
        };
        place = next;
        end = last;
        number += 1;
    }
    if end < table.len() {
        return Err(Refusal::Faulty {
            fault: Fault::Malformed,
            line: number,
        });
    }
    Ok(whole(counts_at(place), end))
}
