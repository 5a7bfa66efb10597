// Rounds over limits of sizes: the upper bounds are lowered until one falls below its lower bound or
// nothing changes.
#![tactic(auto)]

ghost use Rattle.std.specs.Prelude.{◌≡◌, ◌-◌, ◌<◌, ◌≤◌, ℕ, length, take, nat_lt, position, zip, All};
ghost use Rattle.std.proofs.Math.Option.{none};
ghost use Rattle.fixpoint.specs.Limits.{upper_after, first_below, run};
ghost use Rattle.lowering.specs.Coded.{limits_of};
ghost use Rattle.lowering.specs.Closed.{Closed};
ghost use Rattle.rounds.specs.Answer.{lowest_of, first_in, step_from, outcome_of, rounds_of, scratch_after, listed_after, end_of};
ghost use Rattle.rounds.specs.Answer.{SameSlices, SameLinks, LinksAfter, Bounds, Scratch, Standing, Later, Continued, Advanced, Relinked, Ended};

use dependents::Links;
use lowering::Limits;

// What a round comes to: an upper bound is below its lower bound, that of this set the lowest; nothing
// was lowered; or so many sets were.
#[derive(Clone, Copy, Debug, PartialEq, Eq)]
pub enum Progress {
    Emptied { set: usize },
    Settled,
    Going { lowered: usize },
}

// The lowest set whose upper bound fell below its lower bound, and the round.
#[derive(Clone, Copy, Debug, PartialEq, Eq)]
pub struct Emptied {
    pub set: usize,
    pub round: u32,
}

// The upper bounds; scratch for the next ones, and for the sets that a round lowers.
#[derive(Drop)]
pub struct Rounds<'a> {
    pub upper: &'a mut [u32],
    pub next: &'a mut [u32],
    pub changed: &'a mut [usize],
}

// The lowest set whose upper bound is below its lower bound.
fn first_below(lower: &[u32], upper: &[u32]) -> Option<usize>
    ensures { result ≡ position (λ (p : ℕ × ℕ). nat_lt p.1 p.0) (zip lower.now upper.now) }
{
    lower.iter().zip(upper).position(|(low, high)| high < low)
}

// The first of the listed sets whose upper bound is below its lower bound.
fn first_listed(sets: &[usize], lower: &[u32], upper: &[u32]) -> Option<usize>
    requires lower_len { length lower.now ≡ length upper.now }
    requires below { All (λ s. s < length lower.now) sets.now }
    ensures { result ≡ first_in lower.now upper.now sets.now }
{
    sets.iter().copied().find(|s| upper[*s] < lower[*s])
}

fn conclude(found: Option<usize>, lowered: usize) -> Progress
    ensures { result ≡ step_from found lowered }
{
    match found {
        Some(set) => Progress::Emptied { set },
        None => {
            if lowered == 0 {
                Progress::Settled
            } else {
                Progress::Going { lowered }
            }
        }
    }
}

impl<'a> Rounds<'a> {
    // One round, by all limits, on upper bounds that stand somewhere; the sets that were lowered stand at
    // the front of `changed`.
    pub fn step(&mut self, limits: &Limits<'_>, lower: &[u32]) -> Progress
        requires { Standing limits.now lower.now self.old }
        ensures { Advanced limits.now lower.now self.old result self.new }
    {
        let lowered = dependents::whole_round(limits, self.upper, self.next, self.changed);
        conclude(self.first_emptied(lower), lowered)
    }

    fn first_emptied(&self, lower: &[u32]) -> Option<usize>
        ensures { result ≡ position (λ (p : ℕ × ℕ). nat_lt p.1 p.0) (zip lower.now self.now.upper.now) }
    {
        first_below(lower, self.upper)
    }

    // One round by the limits of the sets that the last round lowered, the first `count` of `changed`.
    fn step_changed(
        &mut self,
        limits: &Limits<'_>,
        lower: &[u32],
        links: &Links<'_>,
        count: usize,
    ) -> Progress
        requires standing { Standing limits.now lower.now self.old }
        requires later { Later limits.now lower.now links.now self.old count }
        ensures { Advanced limits.now lower.now self.old result self.new }
    {
        let lowered = dependents::next_round(
            limits,
            links,
            count,
            self.upper,
            self.next,
            self.changed,
        );
        conclude(self.first_changed(lowered, lower), lowered)
    }

    // The first of so many listed sets whose upper bound is below its lower bound.
    fn first_changed(&self, lowered: usize, lower: &[u32]) -> Option<usize>
        requires within { lowered ≤ length self.now.changed.now }
        requires lower_len { length lower.now ≡ length self.now.upper.now }
        requires below { All (λ s. s < length lower.now) (take lowered self.now.changed.now) }
        ensures { result ≡ first_in lower.now self.now.upper.now (take lowered self.now.changed.now) }
    {
        first_listed(&self.changed[..lowered], lower, self.upper)
    }

    // Round n: the first by all limits, a later one by those of the sets that the last one lowered.
    fn turn(
        &mut self,
        n: u32,
        limits: &Limits<'_>,
        lower: &[u32],
        links: &Links<'_>,
        count: usize,
    ) -> Progress
        requires standing { Standing limits.now lower.now self.old }
        requires continued { Continued n limits.now lower.now links.now self.old count }
        ensures { Advanced limits.now lower.now self.old result self.new }
    {
        if n == 1 {
            self.step(limits, lower)
        } else {
            self.step_changed(limits, lower, links, count)
        }
    }

    // The rounds from the upper bounds, none of which is below its lower bound.
    fn rounds_from(
        &mut self,
        limits: &Limits<'_>,
        lower: &[u32],
        links: &mut Links<'_>,
    ) -> Result<u32, Emptied>
        requires bounds { Bounds limits.now lower.now self.old.upper.now }
        requires scratch { Scratch limits.now self.old links.old }
        requires above { first_below 0 lower.now self.old.upper.now ≡ none }
        ensures { Ended limits.now lower.now self.old links.old result self.new links.new }
    {
        let mut n: u32 = 0;
        let mut count = 0;
        let mut end = None;
        let rounds = loop {
            n += 1;
            match self.turn(n, limits, lower, links, count) {
                Progress::Emptied { set } => {
                    end = Some(set);
                    break n;
                }
                Progress::Settled => {
                    break n;
                }
                Progress::Going { lowered } => {
                    relink(n, limits, links);
                    count = lowered;
                }
            }
        };
        ended(end, rounds)
    }

    // The rounds from the upper bounds, and how many there were; `links` is scratch.
    pub fn settle(
        &mut self,
        limits: &Limits<'_>,
        lower: &[u32],
        links: &mut Links<'_>,
    ) -> Result<u32, Emptied>
        requires bounds { Bounds limits.now lower.now self.old.upper.now }
        requires scratch { Scratch limits.now self.old links.old }
        ensures same { SameSlices self.old self.new }
        ensures same_links { SameLinks links.old links.new }
        ensures value { result ≡ outcome_of (run (limits_of limits.now) lower.now self.old.upper.now) }
        ensures upper_after { self.new.upper.now
            ≡ upper_after (limits_of limits.now) self.old.upper.now
            (rounds_of (run (limits_of limits.now) lower.now self.old.upper.now)) }
        ensures next_after { self.new.next.now
            ≡ scratch_after (rounds_of (run (limits_of limits.now) lower.now self.old.upper.now)) self.old.next.now
            self.new.upper.now }
        ensures changed_after { self.new.changed.now
            ≡ listed_after (limits_of limits.now) self.old.upper.now self.old.changed.now
            (rounds_of (run (limits_of limits.now) lower.now self.old.upper.now)) }
        ensures links_after { LinksAfter (rounds_of (run (limits_of limits.now) lower.now self.old.upper.now) - 1)
            (limits_of limits.now) links.old links.new }
    {
        if let Some(set) = self.first_emptied(lower) {
            return Err(Emptied { set, round: 0 });
        }
        self.rounds_from(limits, lower, links)
    }
}

// Links the operands behind the first round: rounds that end there need no links.
fn relink(n: u32, limits: &Limits<'_>, links: &mut Links<'_>)
    requires { Closed (length links.old.last.now) limits.now }
    ensures { Relinked n limits.now links.old links.new }
{
    if n == 1 {
        dependents::link(limits, links.last, links.uses);
    }
}

fn ended(end: Option<usize>, n: u32) -> Result<u32, Emptied>
    ensures { result ≡ end_of end n }
{
    match end {
        Some(set) => Err(Emptied { set, round: n }),
        None => Ok(n),
    }
}
