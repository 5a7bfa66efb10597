// The bounds that the rounds start from, made of the diagram's own in place.
ghost use Rattle.std.specs.Prelude.{◌≡◌, ◌<◌, length};
ghost use Rattle.orm.specs.Prescribe.{raised_at, capped_at};
ghost use Rattle.bounds.specs.Start.{Starts, Narrowed};

use crate::Start;

// A lower bound becomes the larger of itself and the size.
fn raise(lower: &mut [u32], set: usize, size: u32)
    requires { set < length lower.old }
    ensures { lower.new ≡ raised_at set size lower.old }
{
    if lower[set] < size {
        lower[set] = size;
    }
}

// An upper bound becomes the smaller of itself and the size.
fn cap(upper: &mut [u32], set: usize, size: u32)
    requires { set < length upper.old }
    ensures { upper.new ≡ capped_at set size upper.old }
{
    if size < upper[set] {
        upper[set] = size;
    }
}

// The bounds to start from, of the diagram's own.
pub fn narrow(start: Start, lower: &mut [u32], upper: &mut [u32])
    requires starts { Starts start (length lower.old) }
    requires starts_2 { Starts start (length upper.old) }
    ensures { Narrowed start lower.old upper.old lower.new upper.new }
{
    match start {
        Start::Own => {}
        Start::Kept { set, size } => {
            raise(lower, set, size);
            cap(upper, set, size);
        }
    }
}
