// The predicate whose group has a number: a walk over the predicates, whose groups have the last sets in turn.
ghost use Rattle.std.specs.Prelude.{◌≡◌, length};
ghost use Rattle.orm.specs.Diagram.{all_roles};
ghost use Rattle.orm.specs.Average.{placed_groups, group_numbered};
ghost use Rattle.table.specs.Positions.{diagram_of, Walkable};
ghost use Rattle.averages.specs.Owner.{owner_of, predicate_of};

// The index of the predicate's set, in a table with so many roles; or no group has the number.
pub fn find(t: &[u32], roles: u32, number: u32) -> Option<u32>
    requires walkable { Walkable t.now }
    requires roles_value { roles ≡ length (all_roles (diagram_of t.now)) }
    ensures { owner_of result ≡ predicate_of (group_numbered number (placed_groups (diagram_of t.now))) }
{
    let mut x = table::first_cursor(t, roles);
    if number <= x.groups {
        return None;
    }
    for _ in 0..table::pred_count(t) {
        let next = table::next_cursor(t, x);
        if number <= next.groups {
            return Some(x.own);
        }
        x = next;
    }
    None
}
