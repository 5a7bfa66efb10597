// Cuts numbers, keys and lines off a text. A position stands for what follows it.
#![tactic(auto)]

mod keys;
pub mod lines;
pub mod numbers;

// The kind of a line: its key, and of a role line whether it has RMIN and RMAX.
#[derive(Clone, Copy, Debug, PartialEq, Eq)]
pub enum Kind {
    DiagramLine,
    TypesLine,
    TypeLine,
    PredsLine,
    PredLine,
    RoleLine,
    LimitedRoleLine,
    FreqLine,
    EndLine,
}
