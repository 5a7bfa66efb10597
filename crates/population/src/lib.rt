// The cells of the population that a valid table's diagram has with given sizes of its sets. What is
// known of a predicate's columns, parts and pairing is prepared once; a row is then computed from its
// index by remainders.
#![tactic(auto)]

mod counts;
mod parts;
mod preds;
mod roles;
mod rows;
mod types;

ghost use Rattle.std.specs.Prelude.{◌≡◌, length};
ghost use Rattle.orm.specs.Diagram.{all_roles};
ghost use Rattle.orm.specs.Population.{cells};
ghost use Rattle.orm.specs.Populate.{population};
ghost use Rattle.buffer.specs.Written.{Wrote, WroteAll};
ghost use Rattle.table.specs.Positions.{diagram_of};
ghost use Rattle.selection.specs.Selected.{types_of};
ghost use Rattle.tuples.specs.Steps.{Small};
ghost use Rattle.table.specs.Valid.{Valid};
ghost use Rattle.population.specs.Plan.{Front};

use crate::counts::{count_pred_cells, count_type_cells};
use crate::preds::push_preds;
use crate::types::push_types;
use buffer::Output;

// The types of all roles, at the front.
fn role_types(t: &[u32], space: &mut [u32]) -> usize
    requires valid { Valid t.now }
    requires room { length space.old ≡ 96 }
    ensures { Front (types_of (all_roles (diagram_of t.now))) space.new result }
{
    let mut out = Output::new(space);
    selection::push_all_types(t, &mut out);
    out.at
}

fn push_cells(t: &[u32], c: &[u32], out: &mut Output<'_, u32>)
    requires valid { Valid t.now }
    requires small { Small c.now }
    ensures { Wrote out.old (cells (population (diagram_of t.now) c.now)) out.new }
{
    let mut types = [0u32; 96];
    let n = role_types(t, &mut types);
    push_types(t, c, out);
    push_preds(t, c, &types[..n], out);
}

// Writes the cells of the population of a valid table with these sizes of its sets.
pub fn write_cells(t: &[u32], c: &[u32], buffer: &mut [u32]) -> usize
    requires valid { Valid t.now }
    requires small { Small c.now }
    ensures { WroteAll buffer.old (cells (population (diagram_of t.now) c.now)) buffer.new result }
{
    let mut out = Output::new(buffer);
    push_cells(t, c, &mut out);
    out.at
}

// How many cells `write_cells` writes; to write them would take the time of the whole call.
pub fn cell_count(t: &[u32], c: &[u32]) -> usize
    requires valid { Valid t.now }
    requires small { Small c.now }
    ensures { result ≡ length (cells (population (diagram_of t.now) c.now)) }
{
    count_type_cells(t, c) + count_pred_cells(t, c)
}
