// Prints a line for each text of the file `texts`: the program's output, with `;` for each line
// feed; and behind it, where reading accepts the text, whether writing its table gives it again.
#![tactic(auto)]

use buffer::Output;
use refusals::Refusal;
use std::fs::File;
use std::io;
use std::io::Read;

fn main(rt: HostRuntime) -> io::Result<()> {
    let mut file = File::open(&rt, "texts")?;
    for _ in 0..cases::next_number(&mut file)? {
        print_case(&rt, &mut file)?;
    }
    Ok(())
}

fn print_case(rt: &impl Print, file: &mut impl Read) -> io::Result<()> {
    let mut text = [0; 262144];
    let n = cases::next(file, &mut text)?;
    let mut space = [0; 65536];
    let mut line = Output::new(&mut space);
    push_case(&mut line, &text[..n]);
    let end = line.at;
    cases::print(rt, &space, end)
}

// The line of a text.
fn push_case(line: &mut Output<'_, u8>, text: &[u8]) {
    let mut output = [0; 65536];
    let n = command::run(text, &mut output).min(output.len());
    cases::push_joined(line, &output[..n]);
    match is_kept(text) {
        Ok(same) => cases::push_same(line, same),
        Err(Refusal::Faulty { fault: _, line: _ }) => {}
        Err(_) => cases::push_same(line, false),
    }
    line.push(b'\n');
}

// Whether reading and then writing gives the same text; reading may refuse it.
fn is_kept(text: &[u8]) -> Result<bool, Refusal> {
    let mut table = [0; reader::MOST_NUMBERS];
    let n = reader::read(text, &mut table)?.min(table.len());
    Ok(is_text_of(&table[..n], text))
}

// Whether writing the table gives this text.
fn is_text_of(table: &[u32], text: &[u8]) -> bool {
    let mut written = [0; 65536];
    match writer::write(table, &mut written) {
        Ok(length) => &written[..length.min(written.len())] == text,
        Err(_) => false,
    }
}
