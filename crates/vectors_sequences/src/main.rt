// Prints a line for each table of the file `sequences`: the upper bounds at which single limits put to
// use one after another end, `ceilings=N,..`, and what the check says, `rounds=N` or
// `refused=7,SET,ROUND`; of a table with a fault `refused=NUMBER,LINE,0`. The limits are taken from the
// last to the first, again and again, until none lowers a bound.
#![tactic(auto)]

use buffer::Output;
use std::fs::File;
use std::io;
use std::io::Read;

fn main(rt: HostRuntime) -> io::Result<()> {
    let mut file = File::open(&rt, "sequences")?;
    for _ in 0..cases::next_number(&mut file)? {
        print_case(&rt, &mut file)?;
    }
    Ok(())
}

fn print_case(rt: &impl Print, file: &mut impl Read) -> io::Result<()> {
    let mut table = [0; 1024];
    let n = cases::next_numbers(file, &mut table)?;
    let mut space = [0; 4096];
    let mut lines = Output::new(&mut space);
    push_case(&mut lines, &table[..n]);
    let mut joined = [0; 4096];
    let mut line = Output::new(&mut joined);
    let length = lines.at.min(lines.buffer.len());
    cases::push_joined(&mut line, &lines.buffer[..length]);
    line.push(b'\n');
    let end = line.at;
    cases::print(rt, &joined, end)
}

// The lines of a table.
fn push_case(lines: &mut Output<'_, u8>, table: &[u32]) {
    let mut sizes = [0; 208];
    match propagation::start(table, &mut sizes) {
        Ok(length) => {
            carry_on(table, &mut sizes);
            numerals::push_line(lines, b"ceilings=", &sizes, 0, length);
            push_check(lines, table);
        }
        Err(refusal) => command::push_refused(lines, refusal),
    }
}

// How many limits there are where one lowers a bound, else 0.
fn limits_left(table: &[u32], sizes: &[u32]) -> usize {
    match propagation::survey(table, sizes) {
        Ok(found) if found.lowers => found.count,
        _ => 0,
    }
}

// Puts each limit to use once, from the last to the first; no diagram has as many as 65,536.
fn apply_all(table: &[u32], count: usize, sizes: &mut [u32]) {
    for left in (0..count.min(65536) as u32).rev() {
        let _ = propagation::lower(table, left, sizes);
    }
}

// Until no limit lowers a bound; each turn lowers one, and the bounds add up to no more turns than these.
fn carry_on(table: &[u32], sizes: &mut [u32]) {
    for _ in 0..208 * 4096 {
        let count = limits_left(table, sizes);
        if count == 0 {
            return;
        }
        apply_all(table, count, sizes);
    }
}

// What the check says.
fn push_check(lines: &mut Output<'_, u8>, table: &[u32]) {
    let mut sizes = [0; 208];
    match bounds::check(table, &mut sizes) {
        Ok(written) => numerals::push_count(lines, b"rounds=", written.rounds as usize),
        Err(refusal) => command::push_refused(lines, refusal),
    }
}
