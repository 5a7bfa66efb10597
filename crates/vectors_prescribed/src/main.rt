// Prints a line for each table, set number, wanted size and length of the buffer of the file
// `prescribed`: `rounds=N;length=N;cells=N,..;` of the population with just so many in that set, or
// `refused=NUMBER,PLACE,ROUND;`.
#![tactic(auto)]

use buffer::Output;
use std::fs::File;
use std::io;
use std::io::Read;

fn main(rt: HostRuntime) -> io::Result<()> {
    let mut file = File::open(&rt, "prescribed")?;
    for _ in 0..cases::next_number(&mut file)? {
        print_case(&rt, &mut file)?;
    }
    Ok(())
}

fn print_case(rt: &impl Print, file: &mut impl Read) -> io::Result<()> {
    let mut table = [0; 1024];
    let n = cases::next_numbers(file, &mut table)?;
    let mut given = [0; 3];
    cases::next_numbers(file, &mut given)?;
    let [set, wanted, space] = given;
    let mut cells = [0; 16000];
    let space = (space as usize).min(cells.len());
    let mut bytes = [0; 65536];
    let mut lines = Output::new(&mut bytes);
    push_outcome(&mut lines, &table[..n], set, wanted, &mut cells[..space]);
    let mut joined = [0; 65536];
    let mut line = Output::new(&mut joined);
    let length = lines.at.min(lines.buffer.len());
    cases::push_joined(&mut line, &lines.buffer[..length]);
    line.push(b'\n');
    let end = line.at;
    cases::print(rt, &joined, end)
}

fn push_outcome(
    lines: &mut Output<'_, u8>,
    table: &[u32],
    set: u32,
    wanted: u32,
    cells: &mut [u32],
) {
    match prescription::prescribe(table, set, wanted, cells) {
        Ok(written) => {
            numerals::push_count(lines, b"rounds=", written.rounds as usize);
            numerals::push_count(lines, b"length=", written.length);
            numerals::push_line(lines, b"cells=", cells, 0, written.length);
        }
        Err(refusal) => command::push_refused(lines, refusal),
    }
}
