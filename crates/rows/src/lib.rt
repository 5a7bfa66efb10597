// The pass over predicates: K5, K6 and K9 of each. Its rows are put in order once, by the columns of its first group and then by all:
// this order shows which rows are equal, and how often what they hold in the group occurs.
#![tactic(auto)]

ghost use Rattle.std.specs.Prelude.{◌≡◌, ◌+◌, ◌≤◌, length, take, drop};
ghost use Rattle.orm.specs.Form.{group_of};
ghost use Rattle.orm.specs.Constraints.{K5, K6, K9};
ghost use Rattle.faults.specs.Faults.{lowered, faults_of};
ghost use Rattle.faults.specs.Passes.{pred_faults};
ghost use Rattle.table.specs.Positions.{pred_length, groups_start, diagram_of, Walkable};
ghost use Rattle.columns.specs.Differ.{rows_held};
ghost use Rattle.order.specs.Parts.{Scratch};
ghost use Rattle.blocks.specs.Blocks.{pred_width};
ghost use Rattle.blocks.specs.Starts.{Populated};
ghost use Rattle.playing.specs.Places.{population_of, pred_at};
ghost use Rattle.rows.specs.Tests.{PredRows, GroupHere, group_kept, Noted};

use blocks::Blocks;
use buffer::Output;
use columns::{Keys, Rows};
use faults::Faults;
use runs::Outcome;

// How many columns a group has, and with all columns behind them; its limits.
#[derive(Clone, Copy, Debug, PartialEq, Eq)]
struct Group {
    own: usize,
    all: usize,
    low: u32,
    high: u32,
}

// Group g of the predicate at `pred`, with its line at `line`: its columns go to the front of `js`, and all columns behind them.
fn group_of(t: &[u32], pred: usize, g: u32, line: usize, js: &mut [u32]) -> Group
    requires walkable { Walkable t.now }
    requires t_in_bounds { pred + pred_length (drop pred t.now) ≤ length t.now }
    requires pred_bound { pred_width (pred_at t.now pred) ≤ 6 }
    requires js_len { length js.old ≡ 12 }
    ensures { GroupHere (pred_at t.now pred) g (group_of (drop line t.now)) (take result.all js.new) result }
{
    let width = table::number(t, pred, 2);
    let mut out = Output::new(js);
    selection::push_roles(t, table::roles_at(t, pred), width, 0, g, &mut out);
    let own = out.at;
    selection::push_up(0, width, &mut out);
    Group {
        own,
        all: out.at,
        low: table::field(t, line, 0),
        high: table::field(t, line, 1),
    }
}

// ---- of the predicate at `pred` in the table, with these rows

// K5, and K9 of the first group, by one order.
fn first_tests(
    t: &[u32],
    rows: &Rows<'_>,
    pred: usize,
    list: &mut [u32],
    spare: &mut [u32],
) -> Outcome
    requires walkable { Walkable t.now }
    requires pred_rows { PredRows t.now pred rows.now }
    requires scratch { Scratch list.old spare.old }
    ensures differ_value { result.differ ≡ K5 (pred_at t.now pred) (rows_held rows.now) }
    ensures kept_value { result.kept ≡ group_kept t.now rows.now pred 1 (pred + groups_start (drop pred t.now)) }
{
    let mut js = [0u32; 12];
    let x = group_of(t, pred, 1, table::groups_at(t, pred), &mut js);
    let keys = Keys {
        rows: *rows,
        columns: &js[..x.all],
    };
    runs::rows_and_group(&keys, x.own, x.low, x.high, list, spare)
}

// K9 of group g, whose line is at `line`.
fn group_keeps(
    t: &[u32],
    rows: &Rows<'_>,
    pred: usize,
    g: u32,
    line: usize,
    list: &mut [u32],
    spare: &mut [u32],
) -> bool
    requires walkable { Walkable t.now }
    requires pred_rows { PredRows t.now pred rows.now }
    requires scratch { Scratch list.old spare.old }
    ensures { result ≡ group_kept t.now rows.now pred g line }
{
    let mut js = [0u32; 12];
    let x = group_of(t, pred, g, line, &mut js);
    let columns = &js[..x.all];
    let keys = Keys {
        rows: *rows,
        columns: &columns[..x.own],
    };
    runs::occurring(&keys, x.low, x.high, list, spare)
}

// K9, where `first` says it of the first group.
fn groups_keep(
    t: &[u32],
    rows: &Rows<'_>,
    pred: usize,
    first: bool,
    list: &mut [u32],
    spare: &mut [u32],
) -> bool
    requires walkable { Walkable t.now }
    requires pred_rows { PredRows t.now pred rows.now }
    requires scratch { Scratch list.old spare.old }
    requires first_value { first ≡ group_kept t.now rows.now pred 1 (pred + groups_start (drop pred t.now)) }
    ensures { result ≡ K9 (pred_at t.now pred) (rows_held rows.now) }
{
    let count = table::field(t, pred, 3);
    if count == 0 {
        return true;
    }
    if !first {
        return false;
    }
    let lines = table::groups_at(t, pred);
    for i in 1..count {
        if !group_keeps(t, rows, pred, i + 1, lines + 2 * i as usize, list, spare) {
            return false;
        }
    }
    true
}

// Whether K5, K6 and K9 are kept.
#[derive(Clone, Copy, Debug, PartialEq, Eq)]
struct Kept {
    differ: bool,
    sized: bool,
    grouped: bool,
}

fn tests(t: &[u32], rows: &Rows<'_>, pred: usize, list: &mut [u32], spare: &mut [u32]) -> Kept
    requires walkable { Walkable t.now }
    requires pred_rows { PredRows t.now pred rows.now }
    requires scratch { Scratch list.old spare.old }
    ensures differ_value { result.differ ≡ K5 (pred_at t.now pred) (rows_held rows.now) }
    ensures sized_value { result.sized ≡ K6 (pred_at t.now pred) (rows_held rows.now) }
    ensures grouped_value { result.grouped ≡ K9 (pred_at t.now pred) (rows_held rows.now) }
{
    let low = table::field(t, pred, 0);
    let high = table::field(t, pred, 1);
    let sized = columns::in_range(low, high, rows.count);
    let outcome = first_tests(t, rows, pred, list, spare);
    Kept {
        differ: outcome.differ,
        sized,
        grouped: groups_keep(t, rows, pred, outcome.kept, list, spare),
    }
}

// The predicate has the number `own`.
fn pred_pass(
    blocks: &Blocks<'_>,
    rows: &Rows<'_>,
    pred: usize,
    own: u32,
    list: &mut [u32],
    spare: &mut [u32],
    faults: &mut Faults,
)
    requires pred_rows { PredRows blocks.now.table.now pred rows.now }
    requires scratch { Scratch list.old spare.old }
    ensures { Noted blocks.now.table.now blocks.now.cells.now rows.now pred own faults.old.lowest faults.new.lowest }
{
    let kept = tests(blocks.table, rows, pred, list, spare);
    faults.note(kept.differ, 5, own);
    faults.note(kept.sized, 6, own);
    faults.note(kept.grouped, 9, own);
}

// K5, K6 and K9 of all predicates; `list` and `spare` are scratch.
pub fn pass(blocks: &Blocks<'_>, list: &mut [u32], spare: &mut [u32], faults: &mut Faults)
    requires populated { Populated blocks.now.table.now blocks.now.cells.now }
    requires scratch { Scratch list.old spare.old }
    ensures { faults.new.lowest ≡ lowered (faults_of (pred_faults (diagram_of blocks.now.table.now) (population_of blocks.now.table.now blocks.now.cells.now)) 1 (diagram_of blocks.now.table.now).preds (population_of blocks.now.table.now blocks.now.cells.now).preds) faults.old.lowest }
{
    let t = blocks.table;
    let types = table::type_count(t) as usize;
    let mut pred = table::first_pred(t);
    for i in 0..table::pred_count(t) {
        let next = table::next_pred(t, pred);
        let rows = blocks.rows(types + i as usize, blocks::width(t, pred));
        pred_pass(blocks, &rows, pred, i + 1, list, spare, faults);
        pred = next;
    }
}
