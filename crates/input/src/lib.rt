// Reading into a buffer of fixed size.
#![tactic(auto)]

ghost use Rattle.std.specs.Prelude.{ℕ, ◌<◌, ◌≤◌, length, take, IfOk};
ghost use Rattle.std.specs.Io.{ReadsAtMost};
ghost use Rattle.std.specs.Io.KnownBytes.{Consumes, IsAtEnd};

use std::io;
use std::io::Read;

// Reads until the buffer is full or the input has ended, and says how many bytes went to its front. What
// an input holds no contract can say; of a reader whose bytes are known they are the next ones. Its errors
// are the reader's own: it makes none. What was read before one stands at the front of the buffer too, and
// is all that is gone from the reader.
pub fn read_full<R: Read>(input: &mut R, space: &mut [u8]) -> io::Result<usize>
    ensures bound { ReadsAtMost result space.new }
    ensures bytes { IfOk result (λ n. Consumes (R.remaining input.old) (R.remaining input.new) (take n space.new)) }
    ensures taken { (n : ℕ) × (n ≤ length space.new) × Consumes (R.remaining input.old) (R.remaining input.new) (take n space.new) }
    ensures end { IfOk result (λ n. n < length space.new → IsAtEnd (R.remaining input.new)) }
{
    let mut done = 0;
    while done < space.len() {
        let n = input.read(&mut space[done..])?;
        if n == 0 {
            return Ok(done);
        }
        done += n;
    }
    Ok(done)
}
