// What one pass over types and one over predicates find of a population: faults, each a constraint with a number that breaks it. For
// each constraint the lowest number is kept, and the first constraint with one is the answer. What the passes find stands in
// specs/Passes, the law that this is document 01's answer in specs/Laws/Answered.
#![tactic(auto)]

ghost use Rattle.std.specs.Prelude.{◌≡◌, ◌<◌};
ghost use Rattle.faults.specs.Faults.{unless, lowered, no_entries, first_entry, answer_of};

// The lowest broken constraint with the lowest number that breaks it.
#[derive(Clone, Copy, Debug, PartialEq, Eq)]
pub enum Verdict {
    Valid,
    Breaks { constraint: u32, number: u32 },
}

// For each constraint the lowest number that was noted; 0 where there is none, as in the entries that specs/Faults speaks of. Constraints
// count from 1: the first entry is of none.
#[derive(Clone, Copy, Debug, PartialEq, Eq)]
pub struct Faults {
    pub lowest: [u32; 12],
}

impl Faults {
    pub fn new() -> Faults
        ensures { result.lowest ≡ no_entries }
    {
        Faults { lowest: [0; 12] }
    }

    // The number breaks constraint k, unless that is kept.
    pub fn note(&mut self, kept: bool, k: usize, number: u32)
        requires { k < 12 }
        ensures { self.new.lowest ≡ lowered (unless kept k number) self.old.lowest }
    {
        if kept {
            return;
        }
        let entry = self.lowest[k];
        if entry == 0 || number < entry {
            self.lowest[k] = number;
        }
    }

    // The first constraint with an entry.
    pub fn first(&self) -> Verdict
        ensures { answer_of result ≡ first_entry 1 11 self.now.lowest }
    {
        for k in 1..12 {
            let number = self.lowest[k];
            if number != 0 {
                let constraint = k as u32;
                return Verdict::Breaks { constraint, number };
            }
        }
        Verdict::Valid
    }
}
