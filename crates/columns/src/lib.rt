// Columns and rows that stand in cells, and tests of them: ranges, occurrences, different values.
#![tactic(auto)]

mod column;
mod keys;
mod methods;

ghost use Rattle.std.specs.Prelude.{◌≡◌};
ghost use Rattle.orm.specs.Form.{in_range, ◌to◌};

pub use column::Column;
pub use keys::Keys;

// `count` rows of `width` cells, the first at `start`.
#[derive(Clone, Copy, Debug)]
pub struct Rows<'a> {
    pub cells: &'a [u32],
    pub start: usize,
    pub width: usize,
    pub count: usize,
}

#[tactic(auto, unfolding(orm::specs::Form::in_range))]
pub fn in_range(low: u32, high: u32, x: usize) -> bool
    ensures { result ≡ in_range (low to high) x }
{
    (low as usize..=high as usize).contains(&x)
}
