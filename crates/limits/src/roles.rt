// The lower and upper bounds of the roles, in file order.
ghost use Rattle.std.specs.Prelude.{◌≡◌, map, ◌+◌, ◌*◌, ◌≤◌, length, drop};
ghost use Rattle.orm.specs.Diagram.{Role, all_roles};
ghost use Rattle.orm.specs.Sets.{upper_of_role};
ghost use Rattle.buffer.specs.Written.{Wrote};
ghost use Rattle.table.specs.Positions.{role_width, wide_role, roles_in, diagram_of, Walkable};

use buffer::Output;

// The upper bound of the role at position q.
fn role_upper(t: &[u32], q: usize) -> u32
    requires walkable { Walkable t.now }
    requires role_width_in_bounds { q + role_width ≤ length t.now }
    ensures { result ≡ upper_of_role (wide_role (drop q t.now)) }
{
    let most = table::number(t, q, 4);
    if most < 4096 { most } else { 4096 }
}

// The lower bounds of the `count` roles from position q on.
fn push_lowers(out: &mut Output<'_, u32>, t: &[u32], q: usize, count: u32)
    requires walkable { Walkable t.now }
    requires count_in_bounds { q + role_width * count ≤ length t.now }
    ensures { Wrote out.old (map (λ (x : Role). x.rmin) (roles_in count (drop q t.now))) out.new }
{
    let mut p = q;
    for _ in 0..count {
        out.push(table::number(t, p, 3));
        p += table::ROLE_WIDTH;
    }
}

// Their upper bounds.
fn push_uppers(out: &mut Output<'_, u32>, t: &[u32], q: usize, count: u32)
    requires walkable { Walkable t.now }
    requires count_in_bounds { q + role_width * count ≤ length t.now }
    ensures { Wrote out.old (map upper_of_role (roles_in count (drop q t.now))) out.new }
{
    let mut p = q;
    for _ in 0..count {
        out.push(role_upper(t, p));
        p += table::ROLE_WIDTH;
    }
}

pub fn push_role_lowers(out: &mut Output<'_, u32>, t: &[u32])
    requires { Walkable t.now }
    ensures { Wrote out.old (map (λ (x : Role). x.rmin) (all_roles (diagram_of t.now))) out.new }
{
    let count = table::pred_count(t);
    let mut q = table::first_pred(t);
    for _ in 0..count {
        let roles = table::number(t, q, 2);
        push_lowers(out, t, table::roles_at(t, q), roles);
        q = table::next_pred(t, q);
    }
}

pub fn push_role_uppers(out: &mut Output<'_, u32>, t: &[u32])
    requires { Walkable t.now }
    ensures { Wrote out.old (map upper_of_role (all_roles (diagram_of t.now))) out.new }
{
    let count = table::pred_count(t);
    let mut q = table::first_pred(t);
    for _ in 0..count {
        let roles = table::number(t, q, 2);
        push_uppers(out, t, table::roles_at(t, q), roles);
        q = table::next_pred(t, q);
    }
}
