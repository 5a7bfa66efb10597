// The members of the types: each type has the first values of its root.
ghost use Rattle.std.specs.Prelude.{◌≡◌, ◌≤◌, length, get_or};
ghost use mathlib.Core.List.{map, flat_map};
ghost use Rattle.counting.specs.Lists.{up_from};
ghost use Rattle.orm.specs.Population.{cells_of_type};
ghost use Rattle.orm.specs.Supertypes.{first_value};
ghost use Rattle.orm.specs.Populate.{type_values};
ghost use Rattle.buffer.specs.Written.{Wrote};
ghost use Rattle.table.specs.Positions.{diagram_of, Walkable};
ghost use Rattle.tuples.specs.Steps.{Small};

use buffer::Output;

// The size of set s; 0 of a set that is not there.
pub fn size(c: &[u32], s: u32) -> u32
    requires { Small c.now }
    ensures value { result ≡ get_or c.now s 0 }
    ensures upper_bound { result ≤ 4096 }
{
    c.get(s as usize).copied().unwrap_or(0)
}

// The first value of the type at an index: FIRST of its root.
pub fn first_value(t: &[u32], a: u32) -> u32
    requires { Walkable t.now }
    ensures value { result ≡ first_value (diagram_of t.now).types a }
    ensures upper_bound { result ≤ 999999 }
{
    supertypes::first_value(t, table::type_count(t), a)
}

// The cells of the type at an index.
fn push_type(t: &[u32], c: &[u32], a: u32, out: &mut Output<'_, u32>)
    requires walkable { Walkable t.now }
    requires small { Small c.now }
    ensures { Wrote out.old (cells_of_type (type_values (diagram_of t.now) c.now a)) out.new }
{
    let count = size(c, a);
    out.push(count);
    selection::push_up(first_value(t, a), count, out);
}

pub fn push_types(t: &[u32], c: &[u32], out: &mut Output<'_, u32>)
    requires walkable { Walkable t.now }
    requires small { Small c.now }
    ensures { Wrote out.old
        (flat_map cells_of_type
        (map (type_values (diagram_of t.now) c.now) (up_from 0 (length (diagram_of t.now).types))))
        out.new }
{
    for a in 0..table::type_count(t) {
        push_type(t, c, a, out);
    }
}
