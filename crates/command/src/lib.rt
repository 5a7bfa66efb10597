// The program's standard output, as a function of its standard input: reading, check and populating,
// and the report or the refusal.
#![tactic(auto)]

ghost use Rattle.std.specs.Prelude.{◌≡◌, length};
ghost use Rattle.orm.specs.Program.{program};
ghost use Rattle.buffer.specs.Written.{Wrote, WroteAll};
ghost use Rattle.table.specs.Positions.{diagram_of};
ghost use Rattle.limits.specs.Prepared.{ValidTotals};
ghost use Rattle.bounds.specs.Answer.{Settled};
ghost use Rattle.bounds.specs.declared.Start.TheVariants.{Own};
ghost use Rattle.command.specs.Reports.{refusal_line, refused_as, report_of, text_report, table_report};

use bounds::Start;
use buffer::Output;
use refusals::Refusal;
use widening::MOST_NUMBERS;

// So many bytes of the input are read.
pub const MOST_INPUT: usize = 8192;

// So many cells are printed.
const MOST_CELLS: usize = 16000;

// `refused=NUMBER,PLACE,ROUND`
pub fn push_refusal(out: &mut Output<'_, u8>, number: usize, place: usize, round: usize)
    ensures { Wrote out.old (refusal_line number place round) out.new }
{
    out.append(b"refused=");
    numerals::push_value(out, number, 2);
    numerals::push_value(out, place, 1);
    numerals::push_value(out, round, 0);
}

// The line of a refusal.
pub fn push_refused(out: &mut Output<'_, u8>, refusal: Refusal)
    ensures { Wrote out.old (refused_as refusal) out.new }
{
    let numbers = refusal.numbers();
    push_refusal(
        out,
        numbers[0] as usize,
        numbers[1] as usize,
        numbers[2] as usize,
    );
}

// What is printed of a valid table whose sizes have settled; `cells` is scratch.
fn print_cells(t: &[u32], sizes: &[u32], rounds: u32, cells: &mut [u32], out: &mut Output<'_, u8>)
    requires settled { Settled Own t.now sizes.now rounds }
    requires cells_len { length cells.old ≡ 16000 }
    ensures { Wrote out.old (report_of (diagram_of t.now)) out.new }
{
    match populate::populate_settled(t, sizes, rounds, cells) {
        Ok(written) => report::push_report(out, t, rounds, sizes, &cells[..written.length]),
        Err(refusal) => push_refused(out, refusal),
    }
}

// What is printed of a valid table, whose diagram has so many roles and groups.
fn print_valid(t: &[u32], roles: usize, groups: usize, out: &mut Output<'_, u8>)
    requires { ValidTotals t.now roles groups }
    ensures { Wrote out.old (report_of (diagram_of t.now)) out.new }
{
    let mut sizes = limits::set_space();
    let mut cells = [0; MOST_CELLS];
    match bounds::check_valid(t, roles, groups, Start::Own, &mut sizes) {
        Ok(settled) => print_cells(t, &sizes[..settled.length], settled.rounds, &mut cells, out),
        Err(refusal) => push_refused(out, refusal),
    }
}

// What is printed of any table.
fn print_table(table: &[u32], out: &mut Output<'_, u8>)
    ensures { Wrote out.old (table_report table.now) out.new }
{
    let mut wide = [0; MOST_NUMBERS];
    match widening::accept(table, &mut wide) {
        Ok(widened) => print_valid(&wide[..widened.length], widened.roles, widened.groups, out),
        Err(refusal) => push_refused(out, refusal),
    }
}

// What is printed of a text.
fn print_text(text: &[u8], out: &mut Output<'_, u8>)
    ensures { Wrote out.old (text_report text.now) out.new }
{
    let mut table = [0; MOST_NUMBERS];
    match reader::read(text, &mut table) {
        Ok(length) => print_table(&table[..length], out),
        Err(refusal) => push_refused(out, refusal),
    }
}

// Standard output of standard input, of which 8,192 bytes count, as far as the buffer has room:
// 262,144 bytes are enough for any input (specs/Laws/Whole). Answers where the output ends.
pub fn run(input: &[u8], buffer: &mut [u8]) -> usize
    ensures { WroteAll buffer.old (program input.now) buffer.new result }
{
    let mut out = Output::new(buffer);
    print_text(&input[..input.len().min(MOST_INPUT)], &mut out);
    out.at
}
