// Where the blocks of types and predicates stand in cells, and whether cells are cut whole.
#![tactic(auto)]

mod blocks;
mod methods;
mod pred_block;

ghost use Rattle.std.specs.Prelude.{◌≡◌, ◌+◌, ◌*◌, ◌≤◌, ◌<◌, length, get_or, drop, replicate};
ghost use Rattle.std.proofs.lemmas.List.Edits.{sets};
ghost use Rattle.orm.specs.Calls.{population_in};
ghost use Rattle.table.specs.Positions.{type_count, diagram_of, pred_of, Walkable};
ghost use Rattle.blocks.specs.Blocks.{block_length, most_cells, population_at, pred_width, end_of, block_widths, starts_of, extent_of};
ghost use Rattle.blocks.specs.Starts.{Walk};

pub use blocks::Blocks;
pub use pred_block::PredBlock;

// How many entries the block at `at` has by its size cell, which reads as 0 where it is missing.
fn size(cells: &[u32], at: usize) -> usize
    ensures value { result ≡ get_or (drop at cells.now) 0 0 }
    ensures upper_bound { result < 4294967296 }
{
    cells.get(at).copied().unwrap_or(0) as usize
}

// Where the block at `at` ends by its size cell.
fn block_end(cells: &[u32], at: usize, width: usize) -> usize
    requires width_bound { width ≤ 999999 }
    requires at_bound { at ≤ 64 * most_cells }
    ensures value { result ≡ at + block_length width (drop at cells.now) }
    ensures upper_bound { result ≤ at + most_cells }
{
    at + 1 + size(cells, at) * width
}

// Room for the starts of 64 blocks and the end.
pub fn scratch() -> [usize; 65]
    ensures { result ≡ replicate 65 0 }
{
    [0; 65]
}

// Writes where each type's block starts; where the last ends.
fn types_end(t: &[u32], cells: &[u32], starts: &mut [usize]) -> usize
    requires walkable { Walkable t.now }
    requires starts_len { length starts.old ≡ 65 }
    ensures { Walk t.now cells.now starts.old 0 0 starts.new (type_count t.now) result }
{
    let mut at = 0;
    for k in 0..table::type_count(t) as usize {
        starts[k] = at;
        at = block_end(cells, at, 1);
    }
    at
}

// Writes where each block starts, the types' and then the predicates', and the end, which is returned.
fn end_of_blocks(t: &[u32], cells: &[u32], starts: &mut [usize]) -> usize
    requires walkable { Walkable t.now }
    requires starts_len { length starts.old ≡ 65 }
    ensures value { result ≡ end_of cells.now (block_widths (diagram_of t.now)) 0 }
    ensures starts_after { starts.new ≡ sets starts.old 0 (starts_of cells.now (block_widths (diagram_of t.now)) 0) }
{
    let mut at = types_end(t, cells, starts);
    let mut pred = table::first_pred(t);
    let first = table::type_count(t) as usize;
    let end = first + table::pred_count(t) as usize;
    for k in first..end {
        starts[k] = at;
        at = block_end(cells, at, width(t, pred));
        pred = table::next_pred(t, pred);
    }
    starts[end] = at;
    at
}

// None where the cells are cut whole by the size cells, else where they end early or run on. The start of each block is written, the
// types' and then the predicates', and the end.
pub fn cut(t: &[u32], cells: &[u32], starts: &mut [usize]) -> Option<usize>
    requires walkable { Walkable t.now }
    requires starts_len { length starts.old ≡ 65 }
    ensures cells_value { population_in (diagram_of t.now) cells.now ≡ extent_of (population_at (diagram_of t.now) cells.now) result }
    ensures starts_after { starts.new ≡ sets starts.old 0 (starts_of cells.now (block_widths (diagram_of t.now)) 0) }
{
    let end = end_of_blocks(t, cells, starts);
    if end < cells.len() {
        return Some(end);
    }
    if cells.len() < end {
        return Some(cells.len());
    }
    None
}

// Where the block with this number starts, counted from 0; 0 past the end.
pub fn block(starts: &[usize], i: usize) -> usize
    ensures { result ≡ get_or starts.now i 0 }
{
    starts.get(i).copied().unwrap_or(0)
}

// How many roles the predicate at `pred` in the table has.
pub fn width(t: &[u32], pred: usize) -> usize
    requires { Walkable t.now }
    ensures value { result ≡ pred_width (pred_of (drop pred t.now)) }
    ensures value_2 { result ≡ get_or (drop pred t.now) 2 0 }
    ensures upper_bound { result ≤ 999999 }
{
    table::field(t, pred, 2) as usize
}
