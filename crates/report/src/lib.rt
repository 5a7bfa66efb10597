// What the program prints of a population: the rounds, the sizes, and the cells as lines. A full output
// stays as it is.
#![tactic(auto)]

ghost use Rattle.std.specs.Prelude.{◌≡◌, ◌+◌, ◌*◌, ◌≤◌, drop};
ghost use Rattle.buffer.specs.Written.{Wrote};
ghost use Rattle.table.specs.Positions.{type_count, diagram_of, Walkable};
ghost use Rattle.report.specs.Printed.{type_lines, types_end, pred_block, pred_lines, size_lines, cell_lines, printed};

use buffer::Output;

// The values of the first n types.
fn push_types(out: &mut Output<'_, u8>, cells: &[u32], n: u32)
    requires { n ≤ 32 }
    ensures { Wrote out.old (type_lines n cells.now) out.new }
{
    let mut p = 0;
    for _ in 0..n {
        let size = numerals::item(cells, p, 0);
        numerals::push_line(out, b"type=", cells, p + 1, size);
        p += 1 + size;
    }
}

// Where the cells of the first n types end.
fn types_end(cells: &[u32], n: u32) -> usize
    requires { n ≤ 32 }
    ensures value { result ≡ types_end n 0 cells.now }
    ensures upper_bound { result ≤ 32 * 4294967296 }
{
    let mut p = 0;
    for _ in 0..n {
        p += 1 + numerals::item(cells, p, 0);
    }
    p
}

// How many cells so many rows have.
fn row_cells(size: usize, width: usize) -> usize
    requires size_bound { size ≤ 4294967295 }
    requires width_bound { width ≤ 999999 }
    ensures value { result ≡ size * width }
    ensures upper_bound { result ≤ 4294967295 * 999999 }
{
    size * width
}

// The number of a predicate, and its rows, which start at p.
fn push_pred(
    out: &mut Output<'_, u8>,
    number: usize,
    cells: &[u32],
    p: usize,
    width: usize,
    size: usize,
)
    ensures { Wrote out.old (pred_block number width size (drop p cells.now)) out.new }
{
    numerals::push_count(out, b"pred=", number);
    numerals::push_lines(out, b"row=", cells, p, width, size);
}

// All predicates; their cells start at `first`.
fn push_preds(out: &mut Output<'_, u8>, t: &[u32], cells: &[u32], first: usize)
    requires walkable { Walkable t.now }
    requires first_bound { first ≤ 32 * 4294967296 }
    ensures { Wrote out.old (pred_lines 1 (diagram_of t.now).preds (drop first cells.now)) out.new }
{
    let count = table::pred_count(t);
    let mut q = table::first_pred(t);
    let mut p = first;
    for i in 0..count {
        let width = table::number(t, q, 2) as usize;
        let size = numerals::item(cells, p, 0);
        push_pred(out, i as usize + 1, cells, p + 1, width, size);
        p += 1 + row_cells(size, width);
        q = table::next_pred(t, q);
    }
}

// The rounds, and the sizes of all sets.
fn push_sizes(out: &mut Output<'_, u8>, rounds: u32, sizes: &[u32])
    ensures { Wrote out.old (size_lines rounds sizes.now) out.new }
{
    numerals::push_count(out, b"rounds=", rounds as usize);
    numerals::push_lines(out, b"size=", sizes, 0, 1, sizes.len());
}

// The types and the predicates.
fn push_cells(out: &mut Output<'_, u8>, t: &[u32], cells: &[u32])
    requires { Walkable t.now }
    ensures { Wrote out.old (cell_lines (diagram_of t.now) (type_count t.now) cells.now) out.new }
{
    let types = table::type_count(t);
    push_types(out, cells, types);
    push_preds(out, t, cells, types_end(cells, types));
}

// The whole report.
pub fn push_report(out: &mut Output<'_, u8>, t: &[u32], rounds: u32, sizes: &[u32], cells: &[u32])
    requires { Walkable t.now }
    ensures { Wrote out.old (printed (diagram_of t.now) (type_count t.now) rounds sizes.now cells.now) out.new }
{
    push_sizes(out, rounds, sizes);
    push_cells(out, t, cells);
}
