// Writing a diagram: from its table into its text.
//
// Where the lent text has room for every diagram, it is written at once. Elsewhere the length is found
// out first, so that a call whose text is too short writes nothing.
#![tactic(auto)]

ghost use Rattle.std.specs.Prelude.{◌≡◌, map, ◌+◌, ◌*◌, ◌≤◌, length, drop};
ghost use Rattle.orm.specs.Diagram.{line_of_role, lines_of_pred};
ghost use Rattle.orm.specs.Text.{render};
ghost use Rattle.orm.specs.Outcome.{length_of, fitted, buffer_after};
ghost use Rattle.orm.specs.Calls.{write_call};
ghost use Rattle.buffer.specs.Written.{Wrote, WroteAll};
ghost use Rattle.table.specs.Positions.{role_width, roles_in, pred_of, pred_length, diagram_of, Walkable};
ghost use Rattle.reader.specs.Answer.{conversion_of};
ghost use Rattle.writer.specs.Lines.{lines_text, role_text, lines_to_types, pred_lines, Counted};

use buffer::Output;
use grammar::places::role_kind;
use lexer::lines::fields_of;
use refusals::Refusal;
use widening::MOST_NUMBERS;

// No diagram has a longer text.
const MOST_TEXT: usize = 4553;

// The line of the role at position q, with the numbers that a file of this kind has.
fn push_role(out: &mut Output<'_, u8>, t: &[u32], q: usize, kind: usize)
    ensures { Wrote out.old (role_text kind (drop q t.now)) out.new }
{
    numerals::push_line(out, b"role=", t, q, fields_of(role_kind(kind)));
}

// The lines of the `count` roles from position q on.
fn push_roles(out: &mut Output<'_, u8>, t: &[u32], q: usize, count: u32, kind: usize)
    requires { q + role_width * count ≤ length t.now }
    ensures { Wrote out.old (lines_text (map (line_of_role kind) (roles_in count (drop q t.now)))) out.new }
{
    let mut p = q;
    for _ in 0..count {
        push_role(out, t, p, kind);
        p += table::ROLE_WIDTH;
    }
}

// The lines of the predicate that starts at p, in a file of this kind.
fn push_pred(out: &mut Output<'_, u8>, t: &[u32], p: usize, kind: usize)
    requires walkable { Walkable t.now }
    requires t_in_bounds { p + pred_length (drop p t.now) ≤ length t.now }
    ensures { Wrote out.old (lines_text (lines_of_pred kind (pred_of (drop p t.now)))) out.new }
{
    let roles = table::number(t, p, 2);
    let groups = table::number(t, p, 3) as usize;
    let first_group = table::groups_at(t, p);
    numerals::push_line(out, b"pred=", t, p, 4);
    push_roles(out, t, table::roles_at(t, p), roles, kind);
    numerals::push_lines(out, b"freq=", t, first_group, 2, groups);
}

// The lines of all predicates.
fn push_preds(out: &mut Output<'_, u8>, t: &[u32])
    requires { Walkable t.now }
    ensures { Wrote out.old (pred_lines (diagram_of t.now).kind (diagram_of t.now).preds) out.new }
{
    let kind = table::kind(t) as usize;
    let count = table::pred_count(t);
    let mut p = table::first_pred(t);
    for _ in 0..count {
        push_pred(out, t, p, kind);
        p = table::next_pred(t, p);
    }
}

// The first line, the number of types and their lines.
fn push_types(out: &mut Output<'_, u8>, t: &[u32], types: usize)
    requires walkable { Walkable t.now }
    requires types_value { types ≡ length (diagram_of t.now).types }
    ensures { Wrote out.old (lines_text (lines_to_types (diagram_of t.now))) out.new }
{
    numerals::push_count(out, b"diagram=", table::kind(t) as usize);
    numerals::push_count(out, b"types=", types);
    numerals::push_lines(out, b"type=", t, 2, 6, types);
}

// The text of the diagram, which has so many types, predicates and roles; answers where it ends.
fn write_text(t: &[u32], types: usize, preds: usize, roles: usize, text: &mut [u8]) -> usize
    requires { Counted t.now types preds roles }
    ensures { WroteAll text.old (render (diagram_of t.now)) text.new result }
{
    let mut out = Output::new(text);
    push_types(&mut out, t, types);
    numerals::push_count(&mut out, b"preds=", preds);
    push_preds(&mut out, t);
    numerals::push_count(&mut out, b"end=", roles);
    out.at
}

// The length of the text: where it ends in scratch, which has room for every diagram.
fn text_length(t: &[u32], types: usize, preds: usize, roles: usize) -> usize
    requires { Counted t.now types preds roles }
    ensures { result ≡ length (render (diagram_of t.now)) }
{
    let mut bytes = [0; MOST_TEXT];
    write_text(t, types, preds, roles, &mut bytes)
}

// Writes the text of a valid table's diagram, which has so many types, predicates and roles.
fn write_valid(
    t: &[u32],
    types: usize,
    preds: usize,
    roles: usize,
    text: &mut [u8],
) -> Result<usize, Refusal>
    requires { Counted t.now types preds roles }
    ensures result_value { conversion_of result ≡ length_of (fitted (length text.old) (render (diagram_of t.now))) }
    ensures text_after { text.new ≡ buffer_after (fitted (length text.old) (render (diagram_of t.now))) text.old }
{
    if text.len() < MOST_TEXT {
        let needed = text_length(t, types, preds, roles);
        if text.len() < needed {
            return Err(Refusal::TooShort { needed });
        }
    }
    Ok(write_text(t, types, preds, roles, text))
}

// Writes the text of a diagram from its table, and tells its length. It refuses the table (1 to 6), and a
// buffer that is too short for the text (8).
pub fn write(table: &[u32], text: &mut [u8]) -> Result<usize, Refusal>
    ensures result_value { conversion_of result ≡ length_of (write_call table.now (length text.old)) }
    ensures text_after { text.new ≡ buffer_after (write_call table.now (length text.old)) text.old }
{
    let mut wide = [0; MOST_NUMBERS];
    let widened = widening::accept(table, &mut wide)?;
    write_valid(
        &wide[..widened.length],
        widened.types,
        widened.preds,
        widened.roles,
        text,
    )
}
