// Prints a line for each table and set number of the file `averages`: `whole=N;` or `bits=H;`, the 64 bits
// of the float in hexadecimal, of the group with this number, or `refused=NUMBER,PLACE,ROUND;`.
#![tactic(auto)]

use averages::AverageUse;
use buffer::Output;
use std::fs::File;
use std::io;
use std::io::Read;

fn main(rt: HostRuntime) -> io::Result<()> {
    let mut file = File::open(&rt, "averages")?;
    for _ in 0..cases::next_number(&mut file)? {
        print_case(&rt, &mut file)?;
    }
    Ok(())
}

fn print_case(rt: &impl Print, file: &mut impl Read) -> io::Result<()> {
    let mut table = [0; 1024];
    let n = cases::next_numbers(file, &mut table)?;
    let mut given = [0; 1];
    cases::next_numbers(file, &mut given)?;
    let mut bytes = [0; 64];
    let mut lines = Output::new(&mut bytes);
    push_outcome(&mut lines, &table[..n], given[0]);
    let mut joined = [0; 64];
    let mut line = Output::new(&mut joined);
    let length = lines.at.min(lines.buffer.len());
    cases::push_joined(&mut line, &lines.buffer[..length]);
    line.push(b'\n');
    let end = line.at;
    cases::print(rt, &joined, end)
}

fn push_outcome(lines: &mut Output<'_, u8>, table: &[u32], number: u32) {
    match averages::average(table, number) {
        Ok(AverageUse::Whole { times }) => numerals::push_count(lines, b"whole=", times as usize),
        Ok(AverageUse::Fraction { times }) => push_float(lines, times),
        Err(refusal) => command::push_refused(lines, refusal),
    }
}

// A NaN has no bits of its own.
fn push_float(lines: &mut Output<'_, u8>, x: f64) {
    if x != x {
        lines.append(b"nan\n");
        return;
    }
    lines.append(b"bits=");
    push_hexadecimal(lines, f64::to_bits(x));
    lines.push(b'\n');
}

// The sixteen digits, the highest first.
fn push_hexadecimal(lines: &mut Output<'_, u8>, bits: u64) {
    for place in (0..16u32).rev() {
        lines.push(digit(bits >> (4 * place)));
    }
}

// The lowest digit.
fn digit(bits: u64) -> u8 {
    let d = (bits % 16) as u8;
    if d < 10 { b'0' + d } else { b'a' + (d - 10) }
}
