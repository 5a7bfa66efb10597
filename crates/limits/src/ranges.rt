// The lower and upper bounds of the types and of the predicates, in file order.
ghost use Rattle.std.specs.Prelude.{◌≡◌, map, ◌+◌, ◌-◌, ◌≤◌, length, drop};
ghost use Rattle.orm.specs.Diagram.{ObjectType, Predicate};
ghost use Rattle.orm.specs.Form.{type_of};
ghost use Rattle.orm.specs.Sets.{upper_of_type};
ghost use Rattle.buffer.specs.Written.{Wrote};
ghost use Rattle.table.specs.Positions.{diagram_of, Walkable};

use buffer::Output;

// How many values first..last are; at least 1.
fn values(first: u32, last: u32) -> u32
    requires { last ≤ 999999 }
    ensures { result ≡ last - first + 1 }
{
    if last < first { 1 } else { last - first + 1 }
}

// The upper bound of the type that starts at p.
fn type_upper(t: &[u32], p: usize) -> u32
    requires walkable { Walkable t.now }
    requires p_in_bounds { p + 6 ≤ length t.now }
    ensures { result ≡ upper_of_type (type_of (drop p t.now)) }
{
    let most = table::number(t, p, 1);
    if !supertypes::has_range(t, p) {
        return most;
    }
    let v = values(table::number(t, p, 2), table::number(t, p, 3));
    if v < most { v } else { most }
}

pub fn push_type_lowers(out: &mut Output<'_, u32>, t: &[u32])
    requires { Walkable t.now }
    ensures { Wrote out.old (map (λ (x : ObjectType). x.min) (diagram_of t.now).types) out.new }
{
    let count = table::type_count(t);
    let mut p = 2;
    for _ in 0..count {
        out.push(table::number(t, p, 0));
        p += 6;
    }
}

pub fn push_type_uppers(out: &mut Output<'_, u32>, t: &[u32])
    requires { Walkable t.now }
    ensures { Wrote out.old (map upper_of_type (diagram_of t.now).types) out.new }
{
    let count = table::type_count(t);
    let mut p = 2;
    for _ in 0..count {
        out.push(type_upper(t, p));
        p += 6;
    }
}

pub fn push_pred_lowers(out: &mut Output<'_, u32>, t: &[u32])
    requires { Walkable t.now }
    ensures { Wrote out.old (map (λ (x : Predicate). x.min) (diagram_of t.now).preds) out.new }
{
    let count = table::pred_count(t);
    let mut p = table::first_pred(t);
    for _ in 0..count {
        out.push(table::number(t, p, 0));
        p = table::next_pred(t, p);
    }
}

pub fn push_pred_uppers(out: &mut Output<'_, u32>, t: &[u32])
    requires { Walkable t.now }
    ensures { Wrote out.old (map (λ (x : Predicate). x.max) (diagram_of t.now).preds) out.new }
{
    let count = table::pred_count(t);
    let mut p = table::first_pred(t);
    for _ in 0..count {
        out.push(table::number(t, p, 1));
        p = table::next_pred(t, p);
    }
}
