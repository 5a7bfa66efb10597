// Tuples of members by their indices, spread evenly over the members of the sets. A pairing is
// prepared once, as a step for each of its sets; a row is then computed from its number. Nothing here
// speaks of a diagram.
#![tactic(auto)]

ghost use Rattle.std.specs.Prelude.{◌≡◌, ◌+◌, ◌*◌, ◌/◌, ◌%◌, ◌≤◌, ◌<◌, min, length, sum, take, drop};
ghost use Rattle.pairing.specs.Pairing.{gcd, lcm};
ghost use Rattle.buffer.specs.Written.{Wrote};
ghost use Rattle.tuples.specs.Steps.{padded, steps_from, steps, entry_of, before_of, tuple_of, Small};
ghost use Rattle.tuples.specs.Stored.{Stored};
ghost use Rattle.tuples.specs.Nested.{steps_of_each, tuples_in, Indices};

use buffer::Output;

// Of a set in a pairing: how many tuples it is paired with, the least common multiple of their count
// and its size, and its size.
#[derive(Clone, Copy, Debug, Default, PartialEq, Eq)]
pub struct Step {
    pub tuples: u32,
    pub common: u32,
    pub size: u32,
}

// A quotient by 0 is 0, a remainder by 0 the number itself. Most numbers are below the divisor, and
// a test is quicker than a division (measured).
fn quotient(x: u32, k: u32) -> u32
    ensures { result ≡ x / k }
{
    if x < k {
        return 0;
    }
    x.checked_div(k).unwrap_or(0)
}

pub fn remainder(x: u32, k: u32) -> u32
    ensures value { result ≡ x % k }
    ensures upper_bound { result ≤ x }
{
    if x < k {
        return x;
    }
    x.checked_rem(k).unwrap_or(x)
}

// Euclid's algorithm.
fn gcd(a: u32, b: u32) -> u32
    ensures { result ≡ gcd a b }
{
    let mut x = a;
    let mut y = b;
    while 0 < y {
        let rest = remainder(x, y);
        x = y;
        y = rest;
    }
    x
}

// By Euclid's algorithm.
pub fn lcm_by_gcd(a: u32, b: u32) -> u32
    requires a_bound { a ≤ 4096 }
    requires b_bound { b ≤ 4096 }
    ensures { result ≡ lcm a b }
{
    quotient(a * b, gcd(a, b))
}

// From the table where both are 1 to 64.
fn lcm(a: u32, b: u32) -> u32
    requires a_bound { a ≤ 4096 }
    requires b_bound { b ≤ 4096 }
    ensures { result ≡ lcm a b }
{
    if multiples::lists(a, b) {
        multiples::multiple(a, b)
    } else {
        lcm_by_gcd(a, b)
    }
}

// How many tuples a set of t members makes of n, where so many are wanted.
fn kept(want: u32, n: u32, t: u32) -> u32
    requires n_bound { n ≤ 4096 }
    requires t_bound { t ≤ 4096 }
    ensures { result ≡ min want (n * t) }
{
    want.min(n * t)
}

// The steps of `count` sets of these sizes, 0 where there is none, paired with n tuples.
fn push_steps(want: u32, n: u32, sizes: &[u32], count: usize, out: &mut Output<'_, Step>)
    requires small { Small sizes.now }
    requires want_bound { want ≤ 4096 }
    requires n_bound { n ≤ 4096 }
    ensures { Wrote out.old (steps_from want n (padded count sizes.now)) out.new }
{
    let mut tuples = n;
    for i in 0..count {
        let size = sizes.get(i).copied().unwrap_or(0);
        let common = lcm(tuples, size);
        out.push(Step {
            tuples,
            common,
            size,
        });
        tuples = kept(want, tuples, size);
    }
}

// Prepares the pairing of `count` sets to the count wanted; a size that is not there is read as 0.
pub fn push_pairing(want: u32, sizes: &[u32], count: usize, out: &mut Output<'_, Step>)
    requires small { Small sizes.now }
    requires want_bound { want ≤ 4096 }
    ensures { Wrote out.old (steps want (padded count sizes.now)) out.new }
{
    if count == 0 {
        return;
    }
    out.push(Step::default());
    let first = sizes.first().copied().unwrap_or(0);
    push_steps(want, first, behind(sizes, 1), count - 1, out);
}

// What stands behind the first `n` numbers.
fn behind(xs: &[u32], n: usize) -> &[u32]
    ensures { result.now ≡ drop n xs.now }
{
    xs.get(n..).unwrap_or_default()
}

// Prepares the pairing of sets of these sizes to the count wanted.
pub fn prepare(want: u32, sizes: &[u32], out: &mut Output<'_, Step>)
    requires small { Small sizes.now }
    requires want_bound { want ≤ 4096 }
    ensures { Wrote out.old (steps want sizes.now) out.new }
{
    push_pairing(want, sizes, sizes.len(), out);
}

impl Step {
    // Of row x: its row among the tuples before, and its index in the set.
    fn split(&self, x: u32) -> (u32, u32)
        requires { 2 * x < 4294967296 }
        ensures before { result.0 ≡ before_of self.now x }
        ensures entry { result.1 ≡ entry_of self.now x }
        ensures upper_bound { result.0 ≤ x }
    {
        // most rows are below all three, and one test is quicker than three (measured)
        if x < self.tuples && x < self.common && x < self.size {
            return (x, x);
        }
        (
            remainder(x, self.tuples),
            remainder(x + quotient(x, self.common), self.size),
        )
    }
}

// Stores row i of a prepared pairing, from its last set to its first, at the index `to`.
pub fn tuple(steps: &[Step], i: u32, out: &mut [u32], to: usize)
    requires i_bound { 2 * i < 4294967296 }
    requires room { to + length steps.now ≤ length out.old }
    ensures { Stored out.old to (tuple_of steps.now i) out.new }
{
    let mut x = i;
    for j in (1..steps.len()).rev() {
        let (before, entry) = steps[j].split(x);
        out[to + j] = entry;
        x = before;
    }
    if !steps.is_empty() {
        out[to] = x;
    }
}

// Prepares a pairing for each count wanted. How many sets each has stands in `counts`, and the
// sizes of all these sets stand one after another in `sizes`; a number that is not there is read as 0.
pub fn prepare_each(wants: &[u32], counts: &[u32], sizes: &[u32], out: &mut Output<'_, Step>)
    requires small { Small wants.now }
    requires small_2 { Small sizes.now }
    ensures { Wrote out.old (steps_of_each wants.now counts.now sizes.now) out.new }
{
    let mut rest = sizes;
    for n in 0..wants.len() {
        let count = counts.get(n).copied().unwrap_or(0) as usize;
        push_pairing(wants[n], rest, count, out);
        rest = behind(rest, count);
    }
}

// Stores a row of each of some prepared pairings, one row after another, and gives how many
// numbers these are.
pub fn tuple_each(steps: &[Step], counts: &[u32], rows: &[u32], out: &mut [u32]) -> usize
    requires indices { Indices rows.now }
    requires counted { length rows.now ≤ length counts.now }
    requires stepped { sum (take (length rows.now) counts.now) ≤ length steps.now }
    requires room { sum (take (length rows.now) counts.now) ≤ length out.old }
    ensures stored { Stored out.old 0 (tuples_in steps.now counts.now rows.now) out.new }
    ensures value { result ≡ length (tuples_in steps.now counts.now rows.now) }
{
    let mut at = 0;
    for n in 0..rows.len() {
        let to = at + counts[n] as usize;
        tuple(&steps[at..to], rows[n], out, at);
        at = to;
    }
    at
}
