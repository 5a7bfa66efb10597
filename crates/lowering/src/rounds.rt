// Limits put to use on sizes.
ghost use Rattle.std.specs.Prelude.{◌≡◌, ◌<◌, min, length, All};
ghost use Rattle.fixpoint.specs.Limits.{value_of, lowered, lowers, round};
ghost use Rattle.lowering.specs.Sizes.{capped_product, capped_sum};
ghost use Rattle.lowering.specs.Coded.{expr_of, limit_of, limits_of};
ghost use Rattle.lowering.specs.Closed.{Fed, Within, Closed};

use crate::{Limit, Limits, Most};

// A product past the largest size lowers no size, nor does a sum.
fn product(operands: &[u32], old: &[u32]) -> u32
    requires { All (λ s. s < length old.now) operands.now }
    ensures { result ≡ capped_product old.now operands.now }
{
    operands
        .iter()
        .fold(1u32, |p, s| p.saturating_mul(old[*s as usize]))
}

fn sum(operands: &[u32], old: &[u32]) -> u32
    requires { All (λ s. s < length old.now) operands.now }
    ensures { result ≡ capped_sum old.now operands.now }
{
    operands
        .iter()
        .fold(0u32, |p, s| p.saturating_add(old[*s as usize]))
}

// The value at the old sizes, cut at the largest size. A quotient by 0 is 0.
#[tactic(auto, using(crate::specs::Laws::Capped::values))]
fn value(most: Most, operands: &[u32], old: &[u32]) -> u32
    requires { Fed (length old.now) operands.now most }
    ensures { result ≡ min u32.MAX (value_of old.now (expr_of operands.now most)) }
{
    match most {
        Most::Size { set } => old[set as usize],
        Most::Product { from, to } => product(&operands[from as usize..to as usize], old),
        Most::Sum { from, to } => sum(&operands[from as usize..to as usize], old),
        Most::Times { factor, set } => factor.saturating_mul(old[set as usize]),
        Most::Quotient { set, divisor } => old[set as usize].checked_div(divisor).unwrap_or(0),
    }
}

// Puts a limit to use.
#[tactic(auto, using(crate::specs::Laws::Lowered::put))]
pub fn lower_by(limit: Limit, operands: &[u32], old: &[u32], new: &mut [u32])
    requires within { Within (length old.now) operands.now limit }
    requires len { length new.old ≡ length old.now }
    ensures { new.new ≡ lowered old.now (limit_of operands.now limit) new.old }
{
    let target = limit.target as usize;
    let value = value(limit.most, operands, old);
    // (With `min` the range of the stored number is not found.)
    if value < new[target] {
        new[target] = value;
    }
}

// Whether a limit lowers a size.
#[tactic(auto, using(crate::specs::Laws::Lowered::put))]
pub fn lowers(limit: Limit, operands: &[u32], sizes: &[u32]) -> bool
    requires { Within (length sizes.now) operands.now limit }
    ensures { result ≡ lowers sizes.now (limit_of operands.now limit) }
{
    value(limit.most, operands, sizes) < sizes[limit.target as usize]
}

// Puts a limit to use on the sizes themselves, and tells whether it lowers one.
#[tactic(auto, using(crate::specs::Laws::Lowered::put))]
pub fn lower(limit: Limit, operands: &[u32], sizes: &mut [u32]) -> bool
    requires { Within (length sizes.old) operands.now limit }
    ensures value { result ≡ lowers sizes.old (limit_of operands.now limit) }
    ensures sizes_after { sizes.new ≡ lowered sizes.old (limit_of operands.now limit) sizes.old }
{
    let target = limit.target as usize;
    let value = value(limit.most, operands, sizes);
    if value < sizes[target] {
        sizes[target] = value;
        return true;
    }
    false
}

// A round: new becomes old, lowered by each limit at the old sizes.
pub fn round(limits: &Limits<'_>, old: &[u32], new: &mut [u32])
    requires len { length old.now ≡ length new.old }
    requires closed { Closed (length old.now) limits.now }
    ensures { new.new ≡ round (limits_of limits.now) old.now }
{
    buffer::copy(old, new);
    for limit in limits.limits {
        lower_by(*limit, limits.operands, old, new);
    }
}
