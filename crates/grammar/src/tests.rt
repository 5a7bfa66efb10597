// Tests of a line that look at more than one number.
ghost use Rattle.std.specs.Prelude.{◌≡◌, ◌-◌, ◌≤◌, leb, length, get_or, drop};
ghost use Rattle.orm.specs.Form.{type_of, role_of, within_super, values_in_order, named};
ghost use Rattle.reading.specs.Walk.{types_in, roles_at};
ghost use Rattle.grammar.specs.Awaited.{role_fields_of};

use crate::places::role_kind;
use lexer::lines::fields_of;

// Whether FIRST on a subtype's line is its root's, and LAST not above that of the nearest type above it that gives one; the
// lines of `count` types stand in `before`.
fn within_super(count: u32, before: &[u32], line: &[u32]) -> bool
    requires { length line.now ≡ 6 }
    ensures { result ≡ within_super (types_in count (drop 2 before.now)) (type_of line.now) }
{
    let above = supertypes::index(line[4]);
    let first = supertypes::first_value(before, count, above);
    let last = supertypes::last_value(before, count, above);
    line[2] == first && line[3] <= last
}

// Whether FIRST and LAST may stand on the line of the type with the number `own`: in order and, on a subtype, within its
// supertype's; or 0,0 for none.
pub fn values_in_order(own: usize, before: &[u32], line: &[u32]) -> bool
    requires own_bound { own ≤ 32 }
    requires line_len { length line.now ≡ 6 }
    ensures { result ≡ values_in_order (types_in (own - 1) (drop 2 before.now)) (type_of line.now) }
{
    if !supertypes::has_range(line, 0) {
        return true;
    }
    if line[3] < line[2] {
        return false;
    }
    if line[4] == 0 {
        return true;
    }
    within_super(supertypes::index(own as u32), before, line)
}

// The number at `i`; 0 behind the end.
fn number_at(numbers: &[u32], i: usize) -> usize
    ensures { result ≡ get_or numbers.now i 0 }
{
    numbers.get(i).copied().unwrap_or(0) as usize
}

// Whether one of the `count` roles of a diagram of this kind whose numbers start at `first` is in the group.
pub fn is_named(group: usize, kind: usize, numbers: &[u32], first: usize, count: usize) -> bool
    requires { (first ≤ 4294967296) × (count ≤ 4294967296) }
    ensures { result ≡ named group (roles_at kind count (drop first numbers.now)) }
{
    let width = fields_of(role_kind(kind));
    let mut at = first;
    for _ in 0..count {
        if number_at(numbers, at + 2) == group {
            return true;
        }
        at += width;
    }
    false
}

// Whether RMIN is not above RMAX on a role line in a diagram of this kind; without them it is not.
#[inline(always)]
pub fn limits_in_order(kind: usize, line: &[u32]) -> bool
    requires { length line.now ≡ role_fields_of kind }
    ensures { result ≡ leb (role_of kind line.now).rmin (role_of kind line.now).rmax }
{
    if kind == 2 {
        return line[3] <= line[4];
    }
    true
}
