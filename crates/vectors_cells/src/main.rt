// Prints a line for each pair of a table and cells of the file `cells`: `broken=K,NUMBER`, with 0,0
// where the cells are valid, or `refused=NUMBER,PLACE,ROUND`.
#![tactic(auto)]

use buffer::Output;
use faults::Verdict;
use std::fs::File;
use std::io;
use std::io::Read;

fn main(rt: HostRuntime) -> io::Result<()> {
    let mut file = File::open(&rt, "cells")?;
    for _ in 0..cases::next_number(&mut file)? {
        print_case(&rt, &mut file)?;
    }
    Ok(())
}

fn print_case(rt: &impl Print, file: &mut impl Read) -> io::Result<()> {
    let mut table = [0; 1024];
    let t = cases::next_numbers(file, &mut table)?;
    let mut cells = [0; 16000];
    let c = cases::next_numbers(file, &mut cells)?;
    let mut space = [0; 4096];
    let mut line = Output::new(&mut space);
    push_outcome(&mut line, &table[..t], &cells[..c]);
    let end = line.at;
    cases::print(rt, &space, end)
}

fn push_outcome(line: &mut Output<'_, u8>, table: &[u32], cells: &[u32]) {
    match validator::validate(table, cells) {
        Ok(Verdict::Valid) => push_broken(line, 0, 0),
        Ok(Verdict::Breaks { constraint, number }) => {
            push_broken(line, constraint as usize, number as usize)
        }
        Err(refusal) => command::push_refused(line, refusal),
    }
}

// `broken=K,NUMBER`
fn push_broken(line: &mut Output<'_, u8>, constraint: usize, number: usize) {
    line.append(b"broken=");
    numerals::push_value(line, constraint, 1);
    numerals::push_value(line, number, 0);
}
