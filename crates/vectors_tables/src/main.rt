// Prints a line for each table of the file `tables`: what `form` says of it, `accepted=LENGTH` or
// `refused=NUMBER,PLACE,ROUND`; and behind it whether the other calls agree: check and write refuse
// the same tables likewise, and the text of an accepted one is read as the same table.
#![tactic(auto)]

use buffer::Output;
use refusals::Refusal;
use std::fs::File;
use std::io;
use std::io::Read;

fn main(rt: HostRuntime) -> io::Result<()> {
    let mut file = File::open(&rt, "tables")?;
    for _ in 0..cases::next_number(&mut file)? {
        print_case(&rt, &mut file)?;
    }
    Ok(())
}

fn print_case(rt: &impl Print, file: &mut impl Read) -> io::Result<()> {
    let mut table = [0; 1024];
    let n = cases::next_numbers(file, &mut table)?;
    let mut space = [0; 4096];
    let mut line = Output::new(&mut space);
    push_case(&mut line, &table[..n]);
    let end = line.at;
    cases::print(rt, &space, end)
}

// The line of a table.
fn push_case(line: &mut Output<'_, u8>, table: &[u32]) {
    let form = reader::form(table).err();
    push_form(line, form, table.len());
    cases::push_same(
        line,
        is_checked_likewise(table, form) && is_written_likewise(table, form),
    );
    line.push(b'\n');
}

// What is said of the form, as the program says it.
fn push_form(line: &mut Output<'_, u8>, form: Option<Refusal>, length: usize) {
    let mut space = [0; 4096];
    let mut said = Output::new(&mut space);
    match form {
        None => numerals::push_count(&mut said, b"accepted=", length),
        Some(refusal) => command::push_refused(&mut said, refusal),
    }
    let length = said.at.min(said.buffer.len());
    cases::push_joined(line, &said.buffer[..length]);
}

// Whether the check says the same of the form.
fn is_checked_likewise(table: &[u32], form: Option<Refusal>) -> bool {
    let mut sizes = [0; 208];
    match bounds::check(table, &mut sizes) {
        Ok(_) | Err(Refusal::Emptied { set: _, round: _ }) => form.is_none(),
        Err(refusal) => form == Some(refusal),
    }
}

// Whether writing says the same of the form, and reading the text gives the table again.
fn is_written_likewise(table: &[u32], form: Option<Refusal>) -> bool {
    let mut text = [0; 65536];
    match writer::write(table, &mut text) {
        Ok(length) => is_read_as(&text[..length.min(text.len())], table),
        Err(refusal) => form == Some(refusal),
    }
}

// Whether reading the text gives this table.
fn is_read_as(text: &[u8], table: &[u32]) -> bool {
    let mut numbers = [0; 1024];
    match reader::read(text, &mut numbers) {
        Ok(length) => &numbers[..length.min(numbers.len())] == table,
        Err(_) => false,
    }
}
