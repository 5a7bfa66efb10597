// Which types play a role, and which must.
ghost use Rattle.std.specs.Prelude.{◌≡◌, ◌+◌, ◌*◌, ◌≤◌, length, drop};
ghost use Rattle.orm.specs.Diagram.{all_roles, plays, must_play};
ghost use Rattle.orm.specs.Form.{type_of};
ghost use Rattle.table.specs.Positions.{role_width, roles_in, diagram_of, Walkable};

// Whether the type with this number plays one of the `count` roles from position q on.
fn plays_one(t: &[u32], q: usize, count: u32, number: u32) -> bool
    requires walkable { Walkable t.now }
    requires count_in_bounds { q + role_width * count ≤ length t.now }
    ensures { result ≡ plays number (roles_in count (drop q t.now)) }
{
    for i in 0..count {
        if table::number(t, q + table::ROLE_WIDTH * i as usize, 0) == number {
            return true;
        }
    }
    false
}

// Whether the type with this number plays a role.
pub fn plays(t: &[u32], number: u32) -> bool
    requires { Walkable t.now }
    ensures { result ≡ plays number (all_roles (diagram_of t.now)) }
{
    let mut q = table::first_pred(t);
    for _ in 0..table::pred_count(t) {
        let count = table::number(t, q, 2);
        if plays_one(t, table::roles_at(t, q), count, number) {
            return true;
        }
        q = table::next_pred(t, q);
    }
    false
}

// Whether each member of the type at position q, with this number, must be in a role that the type
// plays; `playing`: it plays one.
pub fn must_play(t: &[u32], q: usize, number: u32, playing: bool) -> bool
    requires walkable { Walkable t.now }
    requires playing_value { playing ≡ plays number (all_roles (diagram_of t.now)) }
    ensures { result ≡ must_play (diagram_of t.now) number (type_of (drop q t.now)) }
{
    let independent = table::field(t, q, 5) == 1;
    let root = table::field(t, q, 4) == 0;
    !independent && (root || playing)
}
