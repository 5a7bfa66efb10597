// The program: reads at most 8,192 bytes of a diagram's text on standard input, and prints the rounds,
// the sizes, the types and the predicates of its population, or `refused=NUMBER,PLACE,ROUND`.
#![tactic(auto)]

ghost use Rattle.std.specs.Prelude.{◌≡◌, ◌≤◌, length, take, drop, IfSome, OnOk};
ghost use Rattle.std.specs.Io.KnownBytes.{Appends};
ghost use Rattle.orm.specs.Program.{program};

use std::io;
use std::io::{Read, Write};

// Enough for what is printed of any text (`program-at-most`, in crate extent).
const SPACE: usize = 262144;

fn main(rt: HostRuntime) -> io::Result<()> {
    answer(&mut rt.reader(), &mut io::writer(&rt))
}

// Reads the input and writes what is printed of it. What standard input and output hold no contract can
// say; this one is of every reader and writer whose bytes are known.
fn answer<R: Read, W: Write>(reader: &mut R, writer: &mut W) -> io::Result<()>
    ensures { OnOk result (IfSome (R.remaining reader.old)
        (λ xs. Appends (W.contents writer.old) (W.contents writer.new) (program xs))) }
{
    let mut text = [0; command::MOST_INPUT];
    let n = input::read_full(reader, &mut text)?;
    write_report(&text[..n], writer)
}

// Writes what is printed of a text. The array is made behind all reading: where a call of the reader
// follows its place, it is cleared twice.
fn write_report<W: Write>(text: &[u8], writer: &mut W) -> io::Result<()>
    ensures { OnOk result (Appends (W.contents writer.old) (W.contents writer.new) (program text.now)) }
{
    let mut out = [0; SPACE];
    let length = report(text, &mut out);
    writer.write_all(&out[..length])
}

// What is printed of a text, at the front of `out`, and nothing behind it.
fn report(text: &[u8], out: &mut [u8; SPACE]) -> usize
    ensures value { result ≡ length (program text.now) }
    ensures out_after { take result out.new ≡ program text.now }
    ensures out_unchanged { drop result out.new ≡ drop result out.old }
    ensures inside { result ≤ length out.new }
    ensures counts { result ≡ length (take result out.new) }
{
    command::run(text, out)
}
