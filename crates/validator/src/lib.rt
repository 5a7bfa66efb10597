// Validating (document 01: judging): whether cells are a population that meets the constraints of a table's diagram.
// It takes any table and any cells, writes nothing and runs no rounds.
#![tactic(auto)]

ghost use Rattle.std.specs.Prelude.{◌≡◌, length};
ghost use Rattle.orm.specs.Constraints.{answer};
ghost use Rattle.orm.specs.Calls.{validate_call};
ghost use Rattle.faults.specs.Faults.{answer_of};
ghost use Rattle.table.specs.Valid.{Valid};
ghost use Rattle.table.specs.Positions.{diagram_of, Walkable};
ghost use Rattle.blocks.specs.Starts.{Populated};
ghost use Rattle.playing.specs.Places.{population_of};
ghost use Rattle.types.specs.Members.{Room};
ghost use Rattle.validator.specs.Outcomes.{validate_of, validated, is_final};

use blocks::Blocks;
use faults::{Faults, Verdict};
use refusals::Refusal;
use widening::MOST_NUMBERS;

// ---- the constraints, where the cells are cut whole

// One of K1 to K4 is broken, so that the predicates decide nothing.
fn is_final(verdict: Verdict) -> bool
    ensures { result ≡ is_final verdict }
{
    match verdict {
        Verdict::Valid => false,
        Verdict::Breaks {
            constraint,
            number: _,
        } => constraint <= 4,
    }
}

// The lowest broken constraint with the lowest number that breaks it, by one pass over the types and one over the predicates; `list` and
// `spare` are scratch.
fn first_by(blocks: &Blocks<'_>, list: &mut [u32], spare: &mut [u32]) -> Verdict
    requires populated { Populated blocks.now.table.now blocks.now.cells.now }
    requires room { Room blocks.now.cells.now list.old spare.old }
    ensures { answer_of result ≡ answer (diagram_of blocks.now.table.now) (population_of blocks.now.table.now blocks.now.cells.now) }
{
    let mut faults = Faults::new();
    types::pass(blocks, list, spare, &mut faults);
    let verdict = faults.first();
    if is_final(verdict) {
        return verdict;
    }
    rows::pass(blocks, list, spare, &mut faults);
    faults.first()
}

// Scratch is cleared where it is made, so that few cells get little of it.
fn first_broken(blocks: &Blocks<'_>) -> Verdict
    requires { Populated blocks.now.table.now blocks.now.cells.now }
    ensures { answer_of result ≡ answer (diagram_of blocks.now.table.now) (population_of blocks.now.table.now blocks.now.cells.now) }
{
    if blocks.cells.len() <= 64 {
        let mut list = [0u32; 64];
        let mut spare = [0u32; 64];
        return first_by(blocks, &mut list, &mut spare);
    }
    let mut list = [0u32; 4096];
    let mut spare = [0u32; 4096];
    first_by(blocks, &mut list, &mut spare)
}

// ---- the call

// The cells, against a valid table.
fn validate_cells(t: &[u32], cells: &[u32], starts: &mut [usize]) -> Result<Verdict, Refusal>
    requires walkable { Walkable t.now }
    requires valid { Valid t.now }
    requires starts_len { length starts.old ≡ 65 }
    ensures { validate_of result ≡ validated (diagram_of t.now) cells.now }
{
    if let Some(at) = blocks::cut(t, cells, starts) {
        return Err(Refusal::Cells { at });
    }
    let blocks = Blocks {
        table: t,
        cells,
        starts,
    };
    Ok(first_broken(&blocks))
}

// Valid, or the lowest broken constraint with the lowest type or predicate that breaks it. It refuses the
// table (1 to 6), then cells that end early or run on (9), with the index of the cell.
pub fn validate(table: &[u32], cells: &[u32]) -> Result<Verdict, Refusal>
    ensures { validate_of result ≡ validate_call table.now cells.now }
{
    let mut wide = [0; MOST_NUMBERS];
    let widened = widening::accept(table, &mut wide)?;
    let mut starts = blocks::scratch();
    validate_cells(&wide[..widened.length], cells, &mut starts)
}
