// How often the keys of rows occur: of rows in order, the runs of equal ones tell.
#![tactic(auto)]

ghost use Rattle.std.specs.Prelude.{◌≡◌, ◌≤◌, ◌<◌, length, take};
ghost use Rattle.columns.specs.Values.{keys_in, occurring};
ghost use Rattle.order.specs.Numbers.{Numbers};
ghost use Rattle.order.specs.Parts.{Scratch};
ghost use Rattle.runs.specs.Runs.{Run, Ready};

use columns::Keys;

// Where the run of equal rows ends that starts at place i of the list.
fn run_end(keys: &Keys<'_>, list: &[u32], i: usize) -> usize
    requires numbers { Numbers keys.now.rows list.now }
    requires i_in_bounds { i < length list.now }
    ensures run { Run keys.now.rows keys.now.columns.now list.now i result }
    ensures lower_bound { i < result }
    ensures upper_bound { result ≤ length list.now }
{
    let first = list[i] as usize;
    for j in i + 1..list.len() {
        if !keys.same(first, list[j] as usize) {
            return j;
        }
    }
    list.len()
}

// Puts the numbers of the rows in order at the front of the list, unless they are to be compared, and tells that: up to 16 rows are not worth
// sorting, and for more than the list holds there is no room. (A bool: the numbers stay in the list, which the caller lends on.)
fn order(keys: &Keys<'_>, list: &mut [u32], spare: &mut [u32]) -> bool
    requires { Scratch list.old spare.old }
    ensures { Ready keys.now.rows keys.now.columns.now list.new result }
{
    let count = keys.rows.count;
    if count <= 16 || list.len() < count {
        return true;
    }
    order::sort(keys, &mut list[..count], spare);
    false
}

// The key of each row is that of `low` to `high` rows: by comparing, or by the runs of equal rows in the list.
fn occurring_by(keys: &Keys<'_>, low: u32, high: u32, list: &[u32], compared: bool) -> bool
    requires { Ready keys.now.rows keys.now.columns.now list.now compared }
    ensures { result ≡ occurring low high (keys_in keys.now.rows keys.now.columns.now) (keys_in keys.now.rows keys.now.columns.now) }
{
    if compared {
        return keys.occurring(low, high);
    }
    let numbers = &list[..keys.rows.count];
    // from run to run: no range to go over
    let mut i = 0;
    while i < numbers.len() {
        let end = run_end(keys, numbers, i);
        if !columns::in_range(low, high, end - i) {
            return false;
        }
        i = end;
    }
    true
}

// The same, by an order of its own where so many rows can break the limits; `list` and `spare` are scratch.
pub fn occurring(keys: &Keys<'_>, low: u32, high: u32, list: &mut [u32], spare: &mut [u32]) -> bool
    requires { Scratch list.old spare.old }
    ensures { result ≡ occurring low high (keys_in keys.now.rows keys.now.columns.now) (keys_in keys.now.rows keys.now.columns.now) }
{
    if low == 1 && keys.rows.count <= high as usize {
        return true;
    }
    let compared = order(keys, list, spare);
    occurring_by(keys, low, high, list, compared)
}

// What one order of the rows tells: that they differ, and how often what they hold in the first few columns occurs. Two
// independent answers, so no Option of the second.
#[derive(Clone, Copy, Debug, PartialEq, Eq)]
pub struct Outcome {
    pub differ: bool,
    pub kept: bool,
}

// The keys differ; and what each row holds in the first n of their columns, `low` to `high` rows hold.
pub fn rows_and_group(
    keys: &Keys<'_>,
    n: usize,
    low: u32,
    high: u32,
    list: &mut [u32],
    spare: &mut [u32],
) -> Outcome
    requires n_in_bounds { n ≤ length keys.now.columns.now }
    requires scratch { Scratch list.old spare.old }
    ensures differ_value { result.differ ≡ occurring 1 1 (keys_in keys.now.rows keys.now.columns.now) (keys_in keys.now.rows keys.now.columns.now) }
    ensures kept_value { result.kept ≡ occurring low high (keys_in keys.now.rows (take n keys.now.columns.now)) (keys_in keys.now.rows (take n keys.now.columns.now)) }
{
    let compared = order(keys, list, spare);
    let group = Keys {
        rows: keys.rows,
        columns: &keys.columns[..n],
    };
    Outcome {
        differ: occurring_by(keys, 1, 1, list, compared),
        kept: occurring_by(&group, low, high, list, compared),
    }
}
