// What the roles that a type plays tell: K7, K8 and K11 of each, and which members stand in one. Each column is looked up once.
#![tactic(auto)]

ghost use Rattle.std.specs.Prelude.{◌≡◌, [], ◌∷◌, ◌+◌, ◌*◌, ◌≤◌, drop};
ghost use Rattle.orm.specs.Constraints.{played};
ghost use Rattle.faults.specs.Faults.{lowered};
ghost use Rattle.table.specs.Positions.{wide_role, Walkable};
ghost use Rattle.columns.specs.Values.{values_in};
ghost use Rattle.lookup.specs.Counts.{Fresh};
ghost use Rattle.blocks.specs.Starts.{Populated};
ghost use Rattle.playing.specs.Places.{pred_at, rows_here};
ghost use Rattle.playing.specs.Found.{played_as, told_by, Heard, Found};

use blocks::{Blocks, PredBlock};
use columns::Column;
use faults::Faults;

// K7, K8 and K11 of the role at `role`, by how many of the `size` members of its type were met, and whether all values are members.
fn note_role(
    t: &[u32],
    role: usize,
    met: Result<usize, usize>,
    size: usize,
    own: u32,
    faults: &mut Faults,
)
    requires { Walkable t.now }
    ensures { faults.new.lowest ≡ lowered (told_by (wide_role (drop role t.now)) met size own) faults.old.lowest }
{
    faults.note(met.is_ok(), 7, own);
    let Ok(count) = met else {
        return;
    };
    // `&`: `&&` is a join that the search does not pass.
    let missing = (table::field(t, role, 1) == 1) & (count != size);
    faults.note(!missing, 8, own);
    let low = table::field(t, role, 3);
    let high = table::field(t, role, 4);
    faults.note(columns::in_range(low, high, count), 11, own);
}

// The role at `role` of the table, the number of its predicate, and the stamp for the members in it.
#[derive(Clone, Copy, Debug, PartialEq, Eq)]
struct Turn {
    role: usize,
    own: u32,
    stamp: u32,
}

// A role, with the values in its column, if the type with this number plays it.
fn role_pass(
    t: &[u32],
    number: u32,
    turn: Turn,
    values: &Column<'_>,
    list: &[u32],
    marks: &mut [u32],
    faults: &mut Faults,
)
    requires walkable { Walkable t.now }
    requires fresh { Fresh list.now marks.old turn.stamp }
    ensures { Heard number list.now turn.own (played_as (wide_role (drop turn.role t.now)) (values_in values.now) ∷ [])
        marks.old faults.old.lowest marks.new faults.new.lowest (turn.stamp + 1) }
{
    if table::field(t, turn.role, 0) != number {
        return;
    }
    let met = lookup::meet(values, list, marks, turn.stamp);
    note_role(t, turn.role, met, list.len(), turn.own, faults);
}

// The roles of the predicate with the number `own` that the type with this number plays. A predicate has at most 6 roles, so that 8
// stamps are enough for each.
fn roles_pass(
    pred: &PredBlock<'_>,
    number: u32,
    own: u32,
    list: &[u32],
    marks: &mut [u32],
    faults: &mut Faults,
)
    requires own_bound { own ≤ 96 }
    requires fresh { Fresh list.now marks.old (8 * own) }
    ensures { Heard number list.now own (played (pred_at pred.now.table.now pred.now.line) (rows_here pred.now.table.now pred.now.cells.now pred.now.line pred.now.at))
        marks.old faults.old.lowest marks.new faults.new.lowest (8 * (own + 1)) }
{
    let t = pred.table;
    let first = table::roles_at(t, pred.line);
    for j in 0..pred.width {
        let values = pred.column(j);
        let turn = Turn {
            role: first + table::ROLE_WIDTH * j,
            own,
            stamp: 8 * own + j as u32,
        };
        role_pass(t, number, turn, &values, list, marks, faults);
    }
}

// K7, K8 and K11 of the roles that the type with this number plays, in all predicates; `list` has its members in order, and those
// that stand in a role are marked.
pub fn preds_pass(
    blocks: &Blocks<'_>,
    number: u32,
    list: &[u32],
    marks: &mut [u32],
    faults: &mut Faults,
)
    requires populated { Populated blocks.now.table.now blocks.now.cells.now }
    requires fresh { Fresh list.now marks.old 1 }
    ensures { Found blocks.now.table.now blocks.now.cells.now number list.now marks.old faults.old.lowest marks.new faults.new.lowest }
{
    let t = blocks.table;
    let types = table::type_count(t) as usize;
    let mut line = table::first_pred(t);
    for i in 0..table::pred_count(t) {
        let pred = PredBlock {
            table: t,
            cells: blocks.cells,
            line,
            at: blocks::block(blocks.starts, types + i as usize),
            width: blocks::width(t, line),
        };
        roles_pass(&pred, number, i + 1, list, marks, faults);
        line = table::next_pred(t, line);
    }
}
