// The types above a type, and which types give FIRST and LAST, in a table that is walked or still being read: behind its first
// two numbers stand the lines of `count` types, of six numbers each. What is not there reads as 0, so that no function asks for
// anything.
#![tactic(auto)]

ghost use Rattle.std.specs.Prelude.{◌≡◌, ◌+◌, ◌*◌, drop};
ghost use Rattle.orm.specs.Diagram.{index};
ghost use Rattle.orm.specs.Form.{type_of};
ghost use Rattle.orm.specs.Supertypes.{root, first_value, has_range, has_range_at, nearest, last_value};
ghost use Rattle.reading.specs.Walk.{types_in};
ghost use Rattle.supertypes.specs.Entries.{entry_at};

// The index of what has this number, which counts from 1.
pub fn index(number: u32) -> u32
    ensures { result ≡ index number }
{
    number.saturating_sub(1)
}

// Where the line of the type at an index starts.
fn line_of(a: u32) -> usize
    ensures { result ≡ 2 + 6 * a }
{
    2 + 6 * (a as usize)
}

// The number at i of the line of the type at an index.
fn entry(t: &[u32], count: u32, a: u32, i: usize) -> u32
    ensures { result ≡ entry_at t.now count a i }
{
    if count <= a {
        return 0;
    }
    buffer::item(t, line_of(a), i)
}

// Whether the type whose line starts at `at` gives FIRST and LAST: a root does, and a subtype that does not write 0,0.
// (Early returns: behind `||` the goals stay open.)
pub fn has_range(t: &[u32], at: usize) -> bool
    ensures { result ≡ has_range (type_of (drop at t.now)) }
{
    if buffer::item(t, at, 4) == 0 {
        return true;
    }
    if buffer::item(t, at, 2) != 0 {
        return true;
    }
    buffer::item(t, at, 3) != 0
}

// The same of the type at an index (by an early return, as above).
fn has_range_at(t: &[u32], count: u32, a: u32) -> bool
    ensures { result ≡ has_range_at (types_in count (drop 2 t.now)) a }
{
    if count <= a {
        return true;
    }
    has_range(t, line_of(a))
}

// The root of the type at an index.
fn root(t: &[u32], count: u32, a: u32) -> u32
    ensures { result ≡ root (types_in count (drop 2 t.now)) a }
{
    let mut x = a;
    for _ in 0..a {
        let above = entry(t, count, x, 4);
        if above == 0 {
            return x;
        }
        x = above - 1;
    }
    x
}

// The nearest type that gives FIRST and LAST, from the type at an index on upward.
fn nearest(t: &[u32], count: u32, a: u32) -> u32
    ensures { result ≡ nearest (types_in count (drop 2 t.now)) a }
{
    let mut x = a;
    for _ in 0..a {
        if has_range_at(t, count, x) {
            return x;
        }
        x = index(entry(t, count, x, 4));
    }
    x
}

// FIRST of its root.
pub fn first_value(t: &[u32], count: u32, a: u32) -> u32
    ensures { result ≡ first_value (types_in count (drop 2 t.now)) a }
{
    entry(t, count, root(t, count, a), 2)
}

// LAST of the nearest type that gives one.
pub fn last_value(t: &[u32], count: u32, a: u32) -> u32
    ensures { result ≡ last_value (types_in count (drop 2 t.now)) a }
{
    entry(t, count, nearest(t, count, a), 3)
}
