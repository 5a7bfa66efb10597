// The line reader, 'that carries the text and its position' (document 01, after the constraints).
//
// `next` walks a lent text line by line. A caller that would hold no struct calls `line_from`, which
// asks only a slice and an offset. An offset past the end is as the end: no line is left there.
#![tactic(auto)]

ghost use Rattle.std.specs.Prelude.{◌≡◌};
ghost use Rattle.orm.specs.LineReader.{next_line};
ghost use Rattle.lines.specs.Answers.{line_of, step_from, at_start, step_in, past_line};

#[derive(Clone, Copy)]
pub struct LineReader<'a> {
    pub text: &'a [u8],
    pub offset: usize,
}

// A line's start and its length without the line feed, or none.
#[derive(Clone, Copy)]
pub enum Line {
    At { start: usize, length: usize },
    Nothing,
}

// A line, and the offset past it; where there is none, the offset as it was.
#[derive(Clone, Copy)]
pub struct Step {
    pub line: Line,
    pub offset: usize,
}

pub fn new<'a>(text: &'a [u8]) -> LineReader<'a>
    ensures { result ≡ at_start text.entry }
{
    LineReader { text, offset: 0 }
}

// 'Its one call gives the next line's start and length without the line feed and moves past it;
// where no line feed is left it gives none and stays.'
pub fn next<'s, 'a>(reader: &'s mut LineReader<'a>) -> Line
    ensures { (result ≡ (step_in reader.old).line) × (reader.new ≡ past_line reader.old) }
{
    let step = step_at(reader.text, reader.offset);
    reader.offset = step.offset;
    step.line
}

// The next line from an offset on, with plain parameters: whoever calls it holds no reader.
pub fn line_from(text: &[u8], offset: usize) -> Step
    ensures { result ≡ step_from text.now offset }
{
    let mut reader = new(text);
    reader.offset = offset;
    let line = next(&mut reader);
    Step {
        line,
        offset: reader.offset,
    }
}

// The work of `next`, on the slice and the number.
fn step_at(text: &[u8], offset: usize) -> Step
    ensures { result ≡ step_from text.now offset }
{
    let line = line_at(text, offset);
    match line {
        Line::At { start, length } => Step {
            line,
            offset: start + length + 1,
        },
        Line::Nothing => Step { line, offset },
    }
}

fn line_at(text: &[u8], offset: usize) -> Line
    ensures { result ≡ line_of (next_line text.now offset) }
{
    let mut i = offset;
    while i < text.len() {
        if text[i] == b'\n' {
            return Line::At {
                start: offset,
                length: i - offset,
            };
        }
        i += 1;
    }
    Line::Nothing
}
