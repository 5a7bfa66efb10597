// The rows of a predicate, each computed from its index, from what is prepared for the predicate.
ghost use Rattle.std.specs.Prelude.{◌≡◌, ◌-◌, ◌≤◌, length, map, All};
ghost use mathlib.Core.List.{flat_map};
ghost use Rattle.counting.specs.Lists.{up_from};
ghost use Rattle.buffer.specs.Written.{Wrote};
ghost use Rattle.table.specs.Valid.{Under};
ghost use Rattle.population.specs.Plan.{cell_of, row_by, Narrow, Planned};

use buffer::Output;
use tuples::Step;

// Of a role: the first value and the size of its type, how many of the type's members the roles before
// it take, and where its index stands in a row that is given by parts.
#[derive(Clone, Copy, Debug, Default, PartialEq, Eq)]
pub struct Column {
    pub first: u32,
    pub size: u32,
    pub start: u32,
    pub place: u32,
}

// What is prepared for a predicate: its columns; the steps by which its parts are paired; of each part
// how many roles it has, and the steps by which these are paired, part by part.
#[derive(Clone, Copy, Debug)]
pub struct Plan<'a> {
    pub columns: &'a [Column],
    pub outer: &'a [Step],
    pub counts: &'a [u32],
    pub inner: &'a [Step],
}

// The cell of a column in a row given by parts.
fn cell(column: &Column, flat: &[u32]) -> u32
    requires narrow { Narrow column.now }
    requires under { Under 16384 flat.now }
    ensures { result ≡ cell_of flat.now column.now }
{
    let index = flat.get(column.place as usize).copied().unwrap_or(0);
    column.first + tuples::remainder(column.start + index, column.size)
}

// A row given by parts, where there is room for all of it: no cell needs a test.
fn store_cells(columns: &[Column], flat: &[u32], out: &mut Output<'_, u32>)
    requires narrow { All Narrow columns.now }
    requires under { Under 16384 flat.now }
    requires room { length columns.now ≤ length out.old.buffer.now - out.old.at }
    ensures { Wrote out.old (map (cell_of flat.now) columns.now) out.new }
{
    for column in columns {
        out.buffer[out.at] = cell(column, flat);
        out.at += 1;
    }
}

// A row given by parts. That there is room is tested once for all of it; where there is not, once for
// each cell.
fn push_cells(columns: &[Column], flat: &[u32], out: &mut Output<'_, u32>)
    requires narrow { All Narrow columns.now }
    requires under { Under 16384 flat.now }
    ensures { Wrote out.old (map (cell_of flat.now) columns.now) out.new }
{
    if columns.len() <= out.buffer.len().saturating_sub(out.at) {
        store_cells(columns, flat, out);
        return;
    }
    for column in columns {
        out.push(cell(column, flat));
    }
}

// Row i, where nothing stands behind the steps of the parts; `indices` and `flat` are scratch.
fn push_row(
    plan: &Plan<'_>,
    i: u32,
    indices: &mut [u32],
    flat: &mut [u32],
    out: &mut Output<'_, u32>,
)
    requires planned { Planned plan.now }
    requires stepped { length plan.now.outer.now ≡ length plan.now.counts.now }
    requires i_bound { i ≤ 4096 }
    requires indices_len { length indices.old ≡ 12 }
    requires flat_len { length flat.old ≡ 6 }
    ensures { Wrote out.old (row_by plan.now i) out.new }
{
    tuples::tuple(plan.outer, i, indices, 0);
    let rows = &indices[..plan.counts.len()];
    let n = tuples::tuple_each(plan.inner, plan.counts, rows, flat);
    push_cells(plan.columns, &flat[..n], out);
}

// The first `size` rows.
pub fn push_rows(plan: &Plan<'_>, size: u32, out: &mut Output<'_, u32>)
    requires planned { Planned plan.now }
    requires size_bound { size ≤ 4096 }
    ensures { Wrote out.old (flat_map (row_by plan.now) (up_from 0 size)) out.new }
{
    let mut indices = [0u32; 12];
    let mut flat = [0u32; 6];
    let plan = Plan {
        columns: plan.columns,
        outer: &plan.outer[..plan.counts.len()],
        counts: plan.counts,
        inner: plan.inner,
    };
    for i in 0..size {
        push_row(&plan, i, &mut indices, &mut flat, out);
    }
}
