// The cells of the predicates.
ghost use Rattle.std.specs.Prelude.{◌≡◌, ◌≤◌, length};
ghost use mathlib.Core.List.{map, flat_map};
ghost use Rattle.orm.specs.Sets.{placed};
ghost use Rattle.orm.specs.Population.{cells_of_pred};
ghost use Rattle.orm.specs.Populate.{rows};
ghost use Rattle.buffer.specs.Written.{Wrote};
ghost use Rattle.table.specs.Positions.{diagram_of};
ghost use Rattle.selection.specs.Selected.{Types};
ghost use Rattle.tuples.specs.Steps.{steps, Small};
ghost use Rattle.tuples.specs.Nested.{steps_of_each};
ghost use Rattle.table.specs.Valid.{Valid};
ghost use Rattle.population.specs.Plan.{cells_at, sizes_of, AtPredicate, Wants, Front};

use crate::parts::{part_counts, part_sizes, role_sizes, roles};
use crate::roles::columns;
use crate::rows::{Column, Plan, push_rows};
use crate::types::size;
use buffer::Output;
use tuples::Step;

// The steps by which parts of these sizes are paired to so many rows, at the front of scratch.
fn row_steps(count: u32, sizes: &[u32], space: &mut [Step]) -> usize
    requires bound { count ≤ 4096 }
    requires small { Small sizes.now }
    requires few { length sizes.now ≤ 12 }
    requires room { length space.old ≡ 12 }
    ensures { Front (steps count sizes.now) space.new result }
{
    let mut out = Output::new(space);
    tuples::prepare(count, sizes, &mut out);
    out.at
}

// The steps by which the roles of each part are paired, of parts of the sizes `wants`; `roles` are the
// roles of all parts, and `counts` has how many of them each part has.
fn role_steps(c: &[u32], roles: &[u32], wants: &[u32], counts: &[u32], space: &mut [Step]) -> usize
    requires small { Small c.now }
    requires wants { Wants wants.now counts.now (sizes_of c.now roles.now) }
    requires room { length space.old ≡ 6 }
    ensures { Front (steps_of_each wants.now counts.now (sizes_of c.now roles.now)) space.new result }
{
    let mut sizes = [0u32; 6];
    let n = role_sizes(c, roles, &mut sizes);
    let mut out = Output::new(space);
    tuples::prepare_each(wants, counts, &sizes[..n], &mut out);
    out.at
}

// The cells of the predicate at x; `types` has the types of all roles.
fn push_pred(t: &[u32], c: &[u32], types: &[u32], x: table::Cursor, out: &mut Output<'_, u32>)
    requires at_predicate { AtPredicate t.now c.now x }
    requires types { Types t.now types.now }
    ensures { Wrote out.old (cells_at t.now c.now x) out.new }
{
    let size = size(c, x.own);
    let mut role_space = [0u32; 6];
    let n = roles(t, x, &mut role_space);
    let roles = &role_space[..n];
    let mut count_space = [0u32; 12];
    let n = part_counts(t, x, &mut count_space);
    let counts = &count_space[..n];
    let mut size_space = [0u32; 12];
    let n = part_sizes(t, c, x, &mut size_space);
    let sizes = &size_space[..n];
    let mut column_space = [Column::default(); 6];
    let width = columns(t, c, types, roles, x, &mut column_space);
    let mut outer = [Step::default(); 12];
    let parts = row_steps(size, sizes, &mut outer);
    let mut inner = [Step::default(); 6];
    let steps = role_steps(c, roles, sizes, counts, &mut inner);
    let plan = Plan {
        columns: &column_space[..width],
        outer: &outer[..parts],
        counts,
        inner: &inner[..steps],
    };
    out.push(size);
    push_rows(&plan, size, out);
}

pub fn push_preds(t: &[u32], c: &[u32], types: &[u32], out: &mut Output<'_, u32>)
    requires valid { Valid t.now }
    requires small { Small c.now }
    requires types { Types t.now types.now }
    ensures { Wrote out.old
        (flat_map cells_of_pred (map (rows (diagram_of t.now) c.now) (placed (diagram_of t.now))))
        out.new }
{
    let mut x = table::first_cursor(t, selection::role_count(t, types));
    for _ in 0..table::pred_count(t) {
        push_pred(t, c, types, x, out);
        x = table::next_cursor(t, x);
    }
}
