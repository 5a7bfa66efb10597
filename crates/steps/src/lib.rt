// Single limits by their numbers, from 0: how many there are, which one has a number, and whether any lowers
// a size.
#![tactic(auto)]

ghost use Rattle.std.specs.Prelude.{◌≡◌, length, slice_get};
ghost use Rattle.fixpoint.specs.Limits.{any_lowers};
ghost use Rattle.lowering.specs.Coded.{limits_of};
ghost use Rattle.lowering.specs.Closed.{Closed};

use lowering::{Limit, Limits};

// How many limits there are.
pub fn count(limits: &Limits<'_>) -> usize
    ensures { result ≡ length (limits_of limits.now) }
{
    limits.limits.len()
}

// The limit with this number, if there is one.
pub fn find(limits: &Limits<'_>, number: usize) -> Option<Limit>
    ensures { result ≡ slice_get limits.now.limits.now number }
{
    limits.limits.get(number).copied()
}

// Whether any limit lowers a size.
pub fn any_lowers(limits: &Limits<'_>, sizes: &[u32]) -> bool
    requires { Closed (length sizes.now) limits.now }
    ensures { result ≡ any_lowers (limits_of limits.now) sizes.now }
{
    limits
        .limits
        .iter()
        .any(|limit| lowering::lowers(*limit, limits.operands, sizes))
}
