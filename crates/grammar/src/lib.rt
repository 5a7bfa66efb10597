// The grammar of a diagram: which line comes next, what it must hold, and where it leads.
//
// `Awaited` says which line comes next and what is known so far. The numbers of the lines read so
// far stand in a table, whether they came from a text or from a table.
#![tactic(auto)]

mod kinds;
pub mod places;
mod ranges;
pub mod steps;
mod tests;
mod verdicts;

ghost use Rattle.std.specs.Prelude.{◌≡◌};
ghost use Rattle.grammar.specs.Fault.{number_of};

// What is wrong with a line.
#[derive(Clone, Copy, Debug, PartialEq, Eq)]
pub enum Fault {
    // its key, its digits, the number of its values, its end, or that it is there at all
    Malformed = 1,
    // a number out of range, or a total passed
    OutOfRange = 2,
    // SUPER, TYPE or GROUP names what is not there
    Unknown = 3,
    // a MIN above its MAX, or the values of a type
    Disordered = 4,
    // a frequency group that no role names
    Unnamed = 5,
    // `end` is not the number of roles
    Miscounted = 6,
}

// The number of the refusal.
pub fn number_of(fault: Fault) -> usize
    ensures { result ≡ number_of fault }
{
    fault as usize
}

// What is known from the lines before: the kind of the file, the number of types and of predicates,
// the predicates whose lines are still to come, and the roles and groups so far. The kind is the
// number 1 or 2 of the first line, since every definition of reading takes that number.
#[derive(Clone, Copy, Debug, PartialEq, Eq)]
pub struct Counts {
    pub kind: usize,
    pub types: usize,
    pub preds: usize,
    pub left: usize,
    pub roles: usize,
    pub groups: usize,
}

// A predicate whose lines are being read: the place of its first role's numbers in the table, and
// the numbers of its roles and groups. The counts include them.
#[derive(Clone, Copy, Debug, PartialEq, Eq)]
pub struct Block {
    pub counts: Counts,
    pub first: usize,
    pub roles: usize,
    pub groups: usize,
}

// The line that comes next. `own` is its number among those of its kind, `left` says how many of
// its kind follow it.
#[derive(Clone, Copy, Debug, PartialEq, Eq)]
pub enum Awaited {
    AtDiagram,
    AtTypes {
        kind: usize,
    },
    AtType {
        kind: usize,
        types: usize,
        own: usize,
        left: usize,
    },
    AtPreds {
        kind: usize,
        types: usize,
    },
    AtPred {
        counts: Counts,
    },
    AtRole {
        block: Block,
        left: usize,
    },
    AtFreq {
        block: Block,
        own: usize,
        left: usize,
    },
    AtEnd {
        counts: Counts,
    },
    Over {
        counts: Counts,
    },
}
