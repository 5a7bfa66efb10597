// The least common multiple of two numbers of 1..64, from a constant table.
#![tactic(auto)]

mod table;

ghost use Rattle.std.specs.Prelude.{◌≡◌};
ghost use Rattle.pairing.specs.Pairing.{lcm};
ghost use Rattle.pairing.specs.Multiples.{Listed, listed};

// Whether the table has both numbers.
pub fn lists(a: u32, b: u32) -> bool
    ensures { result ≡ listed a b }
{
    (1..=64).contains(&a) && (1..=64).contains(&b)
}

// The least common multiple of two numbers that the table has.
pub fn multiple(a: u32, b: u32) -> u32
    requires { Listed a b }
    ensures { result ≡ lcm a b }
{
    table::number((a - 1) as usize * 64 + (b - 1) as usize) as u32
}
