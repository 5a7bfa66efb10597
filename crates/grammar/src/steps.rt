// Where the line at a place leads, or its first fault. Both functions are inlined, so that the walk over a table and the walk over
// a text each have a choice by the place of their own in their loops.
ghost use Rattle.std.specs.Prelude.{◌≡◌, true, ◌+◌, ◌≤◌, length, take, drop};
ghost use Rattle.grammar.specs.Awaited.{is_going, fields_at};
ghost use Rattle.grammar.specs.Step.{step_of, step_at};
ghost use Rattle.grammar.specs.Room.{Room};

use crate::kinds::{
    diagram_line, end_line, freq_line, pred_line, preds_line, role_line, type_line, types_line,
};
use crate::tests::values_in_order;
use crate::{Awaited, Fault};

// What the line with these numbers leads to, after lines with the numbers `before`.
#[inline(always)]
#[tactic(auto, unfolding(crate::specs::Step::step_at, reading::specs::Walk::type_tests_at, orm::specs::Form::type_tests))]
fn check_line(place: Awaited, before: &[u32], line: &[u32]) -> Result<Awaited, Fault>
    requires room { Room place (length before.now) }
    requires place_value { is_going place ≡ true }
    requires line_len { length line.now ≡ fields_at place }
    ensures { step_of result ≡ step_at place before.now line.now }
{
    match place {
        Awaited::AtDiagram => diagram_line(line),
        Awaited::AtTypes { kind } => types_line(kind, line),
        Awaited::AtType {
            kind,
            types,
            own,
            left,
        } => {
            let ordered = values_in_order(own, before, line);
            type_line(kind, types, own, left, ordered, line)
        }
        Awaited::AtPreds { kind, types } => preds_line(kind, types, line),
        Awaited::AtPred { counts } => pred_line(counts, before.len(), line),
        Awaited::AtRole { block, left } => role_line(block, left, line),
        Awaited::AtFreq { block, own, left } => freq_line(block, own, left, before, line),
        Awaited::AtEnd { counts } => end_line(counts, line),
        Awaited::Over { counts } => Ok(Awaited::Over { counts }),
    }
}

// The line whose numbers stand at `start` to `end` in the table.
#[inline(always)]
pub fn check_at(place: Awaited, table: &[u32], start: usize, end: usize) -> Result<Awaited, Fault>
    requires room { Room place start }
    requires place_value { is_going place ≡ true }
    requires end_value { end ≡ start + fields_at place }
    requires end_in_bounds { end ≤ length table.now }
    ensures { step_of result ≡ step_at place (take start table.now) (take (fields_at place) (drop start table.now)) }
{
    check_line(place, &table[..start], &table[start..end])
}
