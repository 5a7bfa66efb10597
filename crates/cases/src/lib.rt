// Cases of a test, read from a file one after another. A case is its length, as a number of seven
// digits and a line feed, and so many bytes. A list of numbers is written with commas between and a
// line feed behind the last; the empty list is no byte.
//
// No contract can speak of what a file holds or what is printed; those of the functions that read say
// that the count lies within the buffer. Of a reader whose bytes are known they say how many were read at
// most, and that these are gone from its front and nothing else, at an error too. Their errors are the
// reader's own: they make none.
#![tactic(auto)]

ghost use Rattle.std.specs.Prelude.{ℕ, ◌≡◌, ◌+◌, ◌≤◌, List, length};
ghost use Rattle.std.specs.Io.{ReadsAtMost};
ghost use Rattle.std.specs.Io.KnownBytes.{Consumes};
ghost use Rattle.buffer.specs.Written.{Wrote, WroteAll};
ghost use Rattle.cases.specs.Numbers.{going_on, ended, numbers_from};
ghost use Rattle.cases.specs.Lines.{joint, joined, comparison};

use buffer::Output;
use std::io;
use std::io::Read;

// The value of the number so far, behind one more byte.
fn go_on(v: u32, b: u8) -> u32
    ensures { result ≡ going_on v b }
{
    if b.is_ascii_digit() {
        ((v as u64 * 10 + (b - b'0') as u64) % 4294967296) as u32
    } else {
        0
    }
}

// A byte that is no digit ends a number.
fn push_ended(out: &mut Output<'_, u32>, v: u32, b: u8)
    ensures { Wrote out.old (ended v b) out.new }
{
    if b.is_ascii_digit() {
        return;
    }
    out.push(v);
}

// The numbers of a list.
fn push_numbers(out: &mut Output<'_, u32>, text: &[u8])
    ensures { Wrote out.old (numbers_from 0 text.now) out.new }
{
    let mut v = 0;
    for b in text {
        push_ended(out, v, *b);
        v = go_on(v, *b);
    }
}

// The numbers of a list go to the front of the buffer, as far as it has room.
fn write_numbers(text: &[u8], buffer: &mut [u32]) -> usize
    ensures { WroteAll buffer.old (numbers_from 0 text.now) buffer.new result }
{
    let mut out = Output::new(buffer);
    push_numbers(&mut out, text);
    out.at
}

// The next number of the file, of seven digits and a line feed; 0 where the file has ended.
pub fn next_number<R: Read>(file: &mut R) -> io::Result<usize>
    ensures taken { (bs : List ℕ) × (length bs ≤ 8) × Consumes (R.remaining file.old) (R.remaining file.new) bs }
{
    let mut digits = [0u8; 8];
    let n = input::read_full(file, &mut digits)?;
    let mut number = [0u32; 1];
    write_numbers(&digits[..n], &mut number);
    Ok(numerals::item(&number, 0, 0))
}

// The next case goes to the front of the buffer. One that is longer than the buffer is cut, and the
// cases behind it are lost.
pub fn next<R: Read>(file: &mut R, space: &mut [u8]) -> io::Result<usize>
    ensures bound { ReadsAtMost result space.new }
    ensures taken { (bs : List ℕ) × (length bs ≤ 8 + length space.new) × Consumes (R.remaining file.old) (R.remaining file.new) bs }
{
    let n = next_number(file)?.min(space.len());
    let got = input::read_full(file, &mut space[..n])?;
    Ok(got.min(space.len()))
}

// The numbers of the next case, which is a list of them, go to the front of the buffer. One that has no room for them all has
// the first of them.
pub fn next_numbers<R: Read>(file: &mut R, out: &mut [u32]) -> io::Result<usize>
    ensures bound { ReadsAtMost result out.new }
    ensures taken { (bs : List ℕ) × (length bs ≤ 65544) × Consumes (R.remaining file.old) (R.remaining file.new) bs }
{
    let mut text = [0u8; 65536];
    let n = next(file, &mut text)?;
    Ok(write_numbers(&text[..n], out).min(out.len()))
}

// `;` for a line feed.
fn joint_byte(b: u8) -> u8
    ensures { result ≡ joint b }
{
    if b == b'\n' { b';' } else { b }
}

// Lines joined into one, each with `;` for its line feed.
pub fn push_joined(out: &mut Output<'_, u8>, lines: &[u8])
    ensures { Wrote out.old (joined lines.now) out.new }
{
    for b in lines {
        out.push(joint_byte(*b));
    }
}

// `same` or `differs`, as the answer of a comparison.
pub fn push_same(out: &mut Output<'_, u8>, same: bool)
    ensures { Wrote out.old (comparison same) out.new }
{
    if same {
        out.append(b"same");
    } else {
        out.append(b"differs");
    }
}

// Prints the first n bytes.
pub fn print(rt: &impl Print, bytes: &[u8], n: usize) -> io::Result<()> {
    rt.write_all(&bytes[..n.min(bytes.len())])
}
