// How a call refuses (document 01, 'What the machine says no to'): one enum for all calls, which give
// it as the error of a `Result`.
#![tactic(auto)]

ghost use Rattle.std.specs.Prelude.{◌≡◌, [], ◌∷◌};
ghost use Rattle.refusals.specs.Refusal.{number_of, place_of, round_of};

use grammar::Fault;

// Each call names those of these cases that it refuses with.
#[derive(Clone, Copy, Debug, PartialEq, Eq)]
pub enum Refusal {
    // 1 to 6: the text or the table is that of no diagram; its first faulty line, from 1
    Faulty { fault: Fault, line: usize },
    // 7: the round in which a set is emptied, and its number, from 1
    Emptied { set: usize, round: u32 },
    // 8: what was lent is shorter than the result, of this length
    TooShort { needed: usize },
    // 9: the cells end early or run on, at this index
    Cells { at: usize },
    // 10: no set, limit or group has this number
    NoSuch { number: u32 },
    // 11: a set is emptied where another is kept to a size
    Impossible { set: usize, round: u32 },
}

impl Refusal {
    // Its number, its place and its round, and no length.
    pub fn numbers(self) -> [u64; 4]
        ensures { result ≡ number_of self ∷ place_of self ∷ round_of self ∷ 0 ∷ [] }
    {
        match self {
            Refusal::Faulty { fault, line } => [
                grammar::number_of(fault) as u64,
                line as u64,
                0,
                0,
            ],
            Refusal::Emptied { set, round } => [7, set as u64, round as u64, 0],
            Refusal::TooShort { needed } => [8, needed as u64, 0, 0],
            Refusal::Cells { at } => [9, at as u64, 0, 0],
            Refusal::NoSuch { number } => [10, number as u64, 0, 0],
            Refusal::Impossible { set, round } => [11, set as u64, round as u64, 0],
        }
    }
}
