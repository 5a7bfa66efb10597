// Items written into a lent slice one after another. A full slice stays as it is.
ghost use Rattle.std.specs.Prelude.{[], ◌∷◌, replicate};
ghost use Rattle.buffer.specs.Written.{Wrote, Starts};

use crate::copy;

// A lent slice, and the index at which the next item goes; behind what was written, the slice keeps
// what it held.
#[derive(Drop)]
pub struct Output<'a, T> {
    pub buffer: &'a mut [T],
    pub at: usize,
}

impl<'a, T: Copy> Output<'a, T> {
    // Writes from the start of the slice on.
    pub fn new(buffer: &'a mut [T]) -> Output<'a, T>
        ensures { Starts buffer.entry result }
    {
        Output { buffer, at: 0 }
    }

    pub fn push(&mut self, x: T)
        ensures { Wrote self.old (x ∷ []) self.new }
    {
        if self.at < self.buffer.len() {
            self.buffer[self.at] = x;
            self.at += 1;
        }
    }

    // All of xs. That there is room is tested once for all of them; where there is not, once for each.
    pub fn append(&mut self, xs: &[T])
        ensures { Wrote self.old xs.now self.new }
    {
        if self.at <= self.buffer.len() && xs.len() <= self.buffer.len() - self.at {
            let end = self.at + xs.len();
            copy(xs, &mut self.buffer[self.at..end]);
            self.at = end;
            return;
        }
        for x in xs {
            self.push(*x);
        }
    }

    // x, so many times.
    pub fn fill(&mut self, count: u32, x: T)
        ensures { Wrote self.old (replicate count x) self.new }
    {
        for _ in 0..count {
            self.push(x);
        }
    }
}
