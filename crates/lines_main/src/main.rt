// Prints where the lines of standard input stand: `line=START,LENGTH` for each line, and
// `left=START,LENGTH` for what stands behind the last line feed. Reads at most 4,096 bytes.
#![tactic(auto)]

ghost use Rattle.std.specs.Prelude.{◌≡◌, ◌≤◌, length, take, IfSome, OnOk};
ghost use Rattle.std.specs.Io.KnownBytes.{Appends};
ghost use Rattle.buffer.specs.Written.{Wrote, WroteAll};
ghost use Rattle.lines_main.specs.Report.{entry, report as report_of};

use buffer::Output;
use lines::Line;
use std::io;
use std::io::{Read, Write};

fn main(rt: HostRuntime) -> io::Result<()> {
    answer(&mut rt.reader(), &mut io::writer(&rt))
}

// Reads the input and writes the whole report on its first 4,096 bytes. What standard input and output
// hold no contract can say; this one is of every reader and writer whose bytes are known.
fn answer<R: Read, W: Write>(reader: &mut R, writer: &mut W) -> io::Result<()>
    ensures { OnOk result (IfSome (R.remaining reader.old)
        (λ xs. Appends (W.contents writer.old) (W.contents writer.new) (report_of (take 4096 xs)))) }
{
    let mut text = [0; 4096];
    let n = input::read_full(reader, &mut text)?;
    write_report(&text[..n], writer)
}

// Writes the whole report on a text. The array is made behind all reading: where a call of the reader
// follows its place, it is cleared twice.
fn write_report<W: Write>(text: &[u8], writer: &mut W) -> io::Result<()>
    requires { length text.now ≤ 4096 }
    ensures { OnOk result (Appends (W.contents writer.old) (W.contents writer.new) (report_of text.now)) }
{
    let mut out = [0; 65536];
    let length = report(text, &mut out);
    writer.write_all(&out[..length])
}

// The report on a text, as far as the buffer has room; answers where it ends. A text of 4,096 bytes has
// its whole report in 65,536 bytes (`report-whole`, in specs/Whole.antt).
fn report(text: &[u8], buffer: &mut [u8]) -> usize
    ensures wrote { WroteAll buffer.old (report_of text.now) buffer.new result }
    ensures inside { result ≤ length buffer.new }
    ensures counts { result ≡ length (take result buffer.new) }
{
    let mut out = Output::new(buffer);
    push_report(&mut out, text);
    out.at
}

// The report on a text.
fn push_report(out: &mut Output<'_, u8>, text: &[u8])
    ensures { Wrote out.old (report_of text.now) out.new }
{
    let mut offset: usize = 0;
    loop {
        let step = lines::line_from(text, offset);
        let line = step.line;
        match line {
            Line::At { start, length } => {
                push_entry(out, b"line", start, length);
                offset = step.offset;
            }
            Line::Nothing => {
                push_entry(out, b"left", offset, text.len() - offset);
                return;
            }
        }
    }
}

// `key=START,LENGTH` and a line feed.
fn push_entry(out: &mut Output<'_, u8>, key: &[u8], start: usize, length: usize)
    ensures { Wrote out.old (entry key.now start length) out.new }
{
    out.append(key);
    out.push(b'=');
    numerals::push_value(out, start, 1);
    numerals::push_value(out, length, 0);
}
