// Limits written into two lent slices: the limits, and the operands of products and sums.
ghost use Rattle.std.specs.Prelude.{◌≡◌, ◌≤◌, [], ◌∷◌, min, length, take};
ghost use Rattle.limits.specs.Encoded.{Begins, Encoded, size_limit, times_limit, quotient_limit, both, both_of, with_code, size_if};
ghost use Rattle.limits.specs.declared.writer.Writer.{Writer};

use buffer::Output;
use lowering::{Limit, Limits, Most};

// What is full stays as it is.
#[derive(Drop)]
pub struct Writer<'a> {
    pub limits: Output<'a, Limit>,
    pub operands: Output<'a, u32>,
}

// A place among the operands; no slice of them is so long that it is cut.
pub fn place(at: usize) -> u32
    ensures { result ≡ min u32.MAX at }
{
    at.min(u32::MAX as usize) as u32
}

impl<'a> Writer<'a> {
    // Writes from the start of both slices on.
    pub fn new(limits: &'a mut [Limit], operands: &'a mut [u32]) -> Writer<'a>
        ensures { Begins limits.entry operands.entry result }
    {
        Writer {
            limits: Output::new(limits),
            operands: Output::new(operands),
        }
    }

    // What was written.
    pub fn limits(&self) -> Limits<'_>
        requires { self.now.limits.at ≤ length self.now.limits.buffer.now }
        ensures limits { result.limits.now ≡ take self.now.limits.at self.now.limits.buffer.now }
        ensures operands { result.operands.now ≡ self.now.operands.buffer.now }
    {
        Limits {
            limits: &self.limits.buffer[..self.limits.at],
            operands: self.operands.buffer,
        }
    }

    pub fn push(&mut self, target: u32, most: Most)
        ensures same_limits { self.new.limits.buffer.ghost_name ≡ self.old.limits.buffer.ghost_name }
        ensures same_operands { self.new.operands.buffer.ghost_name ≡ self.old.operands.buffer.ghost_name }
        ensures is { both_of self.new ≡ with_code (both_of self.old) target most }
    {
        self.limits.push(Limit { target, most });
    }

    // The size of `target` is at most that of `set`.
    pub fn at_most(&mut self, target: u32, set: u32)
        ensures { Encoded self.old (size_limit target set ∷ []) self.new }
    {
        self.push(target, Most::Size { set });
    }

    pub fn at_most_if(&mut self, yes: bool, target: u32, set: u32)
        ensures { Encoded self.old (size_if yes target set) self.new }
    {
        if yes {
            self.at_most(target, set);
        }
    }

    pub fn at_most_times(&mut self, target: u32, factor: u32, set: u32)
        ensures { Encoded self.old (times_limit target factor set ∷ []) self.new }
    {
        self.push(target, Most::Times { factor, set });
    }

    pub fn at_most_quotient(&mut self, target: u32, set: u32, divisor: u32)
        ensures { Encoded self.old (quotient_limit target set divisor ∷ []) self.new }
    {
        self.push(target, Most::Quotient { set, divisor });
    }
}
