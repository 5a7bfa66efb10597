// Prints the least common multiples of 1..64 with 1..64, each found by Euclid's algorithm: a line for
// each row, with commas between. These are the numbers of the constant table in `multiples`.
#![tactic(auto)]

ghost use Rattle.std.specs.Prelude.{◌≡◌, ◌≤◌, length, take, OnOk};
ghost use Rattle.std.specs.Io.KnownBytes.{Appends};
ghost use Rattle.orm.specs.MultiplesText.{multiples_text};
ghost use Rattle.buffer.specs.Written.{Wrote};
ghost use Rattle.pairing.specs.Pairing.{lcm};
ghost use Rattle.multiples_main.specs.Rows.{row_text, rows_text};
ghost use Rattle.multiples_main.specs.Printed.{Printed};

use buffer::Output;
use std::io;
use std::io::Write;

fn main(rt: HostRuntime) -> io::Result<()> {
    write(&mut io::writer(&rt))
}

// Writes the text. What standard output holds no contract can say; this one is of every writer whose
// bytes are known.
fn write<W: Write>(writer: &mut W) -> io::Result<()>
    ensures { OnOk result (Appends (W.contents writer.old) (W.contents writer.new) multiples_text) }
{
    let mut out = [0; 65536];
    let length = print(&mut out);
    writer.write_all(&out[..length])
}

// The text at the front of the buffer; it has 16,697 bytes.
fn print(buffer: &mut [u8]) -> usize
    requires { 16697 ≤ length buffer.old }
    ensures printed { Printed (take result buffer.new) }
    ensures inside { result ≤ length buffer.new }
    ensures counts { result ≡ length (take result buffer.new) }
{
    let mut out = Output::new(buffer);
    push_rows(&mut out);
    out.at
}

// The rows of 1..64.
fn push_rows(out: &mut Output<'_, u8>)
    ensures { Wrote out.old (rows_text 1 64) out.new }
{
    for a in 1..65 {
        push_row(out, a);
    }
}

// The row of a.
fn push_row(out: &mut Output<'_, u8>, a: u32)
    requires { a ≤ 64 }
    ensures { Wrote out.old (row_text a 1 64) out.new }
{
    for b in 1..65 {
        numerals::push_value(out, multiple(a, b), (64 - b) as usize);
    }
}

fn multiple(a: u32, b: u32) -> usize
    requires a_bound { a ≤ 4096 }
    requires b_bound { b ≤ 4096 }
    ensures { result ≡ lcm a b }
{
    tuples::lcm_by_gcd(a, b) as usize
}
