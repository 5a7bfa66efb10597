// The range of each field, case by case as document 01 lists them, and the test of a line by this list.
ghost use Rattle.std.specs.Prelude.{◌≡◌, get_or};
ghost use Rattle.orm.specs.Form.{ranges, unlimited, in_range, in_ranges};
ghost use Rattle.lexer.specs.Cuts.{kind_of};
ghost use Rattle.grammar.specs.Listed.{HasBounds};

use lexer::Kind;

// The range of a field: keys in the order of the file, a role line without RMIN and RMAX before one with them, fields in the
// order of the line, numbered from 0. `end` has no range, and `_` is a field that the key does not have; none: any number.
#[tactic(auto, unfolding(orm::specs::Form::ranges))]
fn bounds_of(key: Kind, field: usize) -> Option<(u32, u32)>
    ensures { HasBounds key field result }
{
    match key {
        Kind::DiagramLine => match field {
            0 => Some((1, 2)), // the number of the first line
            _ => None,
        },
        Kind::TypesLine => match field {
            0 => Some((1, 32)), // T
            _ => None,
        },
        Kind::TypeLine => match field {
            0 => Some((1, 4096)), // MIN
            1 => Some((1, 4096)), // MAX
            2 => Some((0, 999999)), // FIRST
            3 => Some((0, 999999)), // LAST
            4 => Some((0, 32)), // SUPER
            5 => Some((0, 1)), // INDEP
            _ => None,
        },
        Kind::PredsLine => match field {
            0 => Some((1, 32)), // P
            _ => None,
        },
        Kind::PredLine => match field {
            0 => Some((1, 4096)), // MIN
            1 => Some((1, 4096)), // MAX
            2 => Some((1, 6)), // ROLES
            3 => Some((0, 6)), // GROUPS
            _ => None,
        },
        Kind::RoleLine => match field {
            0 => Some((1, 32)), // TYPE
            1 => Some((0, 1)), // MAND
            2 => Some((0, 6)), // GROUP
            _ => None,
        },
        Kind::LimitedRoleLine => match field {
            0 => Some((1, 32)), // TYPE
            1 => Some((0, 1)), // MAND
            2 => Some((0, 6)), // GROUP, before the limits
            3 => Some((1, 4096)), // RMIN
            4 => Some((1, 4096)), // RMAX
            _ => None,
        },
        Kind::FreqLine => match field {
            0 => Some((1, 4096)), // FMIN
            1 => Some((1, 4096)), // FMAX
            _ => None,
        },
        Kind::EndLine => None,
    }
}

// Whether a number is in the range of a field.
#[inline(always)]
#[tactic(auto, unfolding(orm::specs::Form::in_range))]
fn is_in_range(key: Kind, field: usize, number: u32) -> bool
    ensures { result ≡ in_range (get_or (ranges (kind_of key)) field unlimited) number }
{
    match bounds_of(key, field) {
        Some((low, high)) => low <= number && number <= high,
        None => true,
    }
}

// Whether each number of a line with this key is in the range of its field. By `for`: a chain with `all` is not inlined into the
// walk, and reading a table takes more than twice as long.
#[inline(always)]
pub fn in_ranges(key: Kind, line: &[u32]) -> bool
    ensures { result ≡ in_ranges (ranges (kind_of key)) line.now }
{
    for field in 0..line.len() {
        if !is_in_range(key, field, line[field]) {
            return false;
        }
    }
    true
}
