// A round on sizes, and the sets that it changed.
ghost use Rattle.std.specs.Prelude.{◌≡◌, not, ◌≤◌, ◌<◌, eqb, length, take, slice_index, slice_set};
ghost use Rattle.fixpoint.specs.Limits.{round};
ghost use Rattle.buffer.specs.Written.{Wrote, WroteAll};
ghost use Rattle.lowering.specs.Coded.{limits_of};
ghost use Rattle.lowering.specs.Closed.{Closed};
ghost use Rattle.counting.specs.Lists.{when};
ghost use Rattle.dependents.specs.Dependents.{Linked, differing, Lowering, Used, Due};

use crate::Links;
use buffer::Output;
use lowering::Limits;

// Puts the limits to use that have the set as an operand.
fn lower_dependents(limits: &Limits<'_>, links: &Links<'_>, s: usize, old: &[u32], new: &mut [u32])
    requires closed { Closed (length old.now) limits.now }
    requires linked { Linked (limits_of limits.now) links.now.last.now links.now.uses.now }
    requires s_in_bounds { s < length links.now.last.now }
    requires lowering { Lowering (limits_of limits.now) old.now new.old }
    ensures { Used (limits_of limits.now) old.now s new.old new.new }
{
    let mut q = links.last[s];
    // A chain of links, which no range counts.
    while q != 0 {
        let operand = links.uses[q - 1];
        lowering::lower_by(limits.limits[operand.limit], limits.operands, old, new);
        q = operand.before;
    }
}

// A round on `old`, which the last round changed at these sets: `new` becomes what it leaves.
fn lower_listed(
    limits: &Limits<'_>,
    links: &Links<'_>,
    sets: &[usize],
    old: &[u32],
    new: &mut [u32],
)
    requires closed { Closed (length old.now) limits.now }
    requires due { Due (limits_of limits.now) links.now.last.now links.now.uses.now sets.now old.now }
    requires value { new.old ≡ old.now }
    ensures { new.new ≡ round (limits_of limits.now) old.now }
{
    for s in sets {
        lower_dependents(limits, links, *s, old, new);
    }
}

// Makes the size of the set x, and lists a set whose size changes.
fn take_size(before: &mut [u32], set: usize, x: u32, changed: &mut Output<'_, usize>)
    requires { set < length before.old }
    ensures before_after { before.new ≡ slice_set before.old set x }
    ensures wrote { Wrote changed.old (when (not (eqb (slice_index before.old set) x)) set) changed.new }
{
    // Most sizes stay, and are not written.
    if before[set] != x {
        before[set] = x;
        changed.push(set);
    }
}

// Makes `before` the same as `after`, and lists the sets at which they differed.
fn take_sizes(before: &mut [u32], after: &[u32], changed: &mut [usize]) -> usize
    requires { length before.old ≡ length after.now }
    ensures before_after { before.new ≡ after.now }
    ensures wrote { WroteAll changed.old (differing 0 before.old after.now) changed.new result }
{
    let mut out = Output::new(changed);
    for i in 0..after.len() {
        take_size(before, i, after[i], &mut out);
    }
    out.at
}

// A round, by all limits, on the sizes; `next` becomes the same. Lists the sets that it changed.
pub fn whole_round(
    limits: &Limits<'_>,
    sizes: &mut [u32],
    next: &mut [u32],
    changed: &mut [usize],
) -> usize
    requires sizes_len { length sizes.old ≡ length next.old }
    requires closed { Closed (length sizes.old) limits.now }
    ensures sizes_after { sizes.new ≡ round (limits_of limits.now) sizes.old }
    ensures next_after { next.new ≡ round (limits_of limits.now) sizes.old }
    ensures wrote { WroteAll changed.old
        (differing 0 sizes.old (round (limits_of limits.now) sizes.old)) changed.new result }
{
    lowering::round(limits, sizes, next);
    take_sizes(sizes, next, changed)
}

// A round by the limits of the first `count` sets that are listed, which the last round changed; `next`
// becomes the same, and the sets that this round changes are listed in their place.
pub fn next_round(
    limits: &Limits<'_>,
    links: &Links<'_>,
    count: usize,
    sizes: &mut [u32],
    next: &mut [u32],
    changed: &mut [usize],
) -> usize
    requires closed { Closed (length sizes.old) limits.now }
    requires due { Due (limits_of limits.now) links.now.last.now links.now.uses.now (take count changed.old) sizes.old }
    requires count_in_bounds { count ≤ length changed.old }
    requires next_value { next.old ≡ sizes.old }
    ensures sizes_after { sizes.new ≡ round (limits_of limits.now) sizes.old }
    ensures next_after { next.new ≡ round (limits_of limits.now) sizes.old }
    ensures wrote { WroteAll changed.old
        (differing 0 sizes.old (round (limits_of limits.now) sizes.old)) changed.new result }
{
    lower_listed(limits, links, &changed[..count], sizes, next);
    take_sizes(sizes, next, changed)
}
