// The numbers of a line.
ghost use Rattle.std.specs.Prelude.{◌≡◌, ◌+◌, ◌≤◌, length, drop, IfSome};
ghost use Rattle.std.proofs.lemmas.List.Edits.{sets};
ghost use Rattle.orm.specs.Text.{numbers, text_line};
ghost use Rattle.lexer.specs.Cuts.{rest_of, rest_in, kind_of, fields_of, sound_numbers, line_numbers};

use crate::Kind;
use crate::keys::{behind_key, behind_separator};
use crate::numbers::number_at;

// The number of values on a role line, without RMIN and RMAX and with them.
pub const ROLE_FIELDS: usize = 3;

const LIMITED_ROLE_FIELDS: usize = 5;

// The `n` numbers of a line, with commas between, and the line feed; those before a fault are written all the same.
fn numbers_at(n: usize, text: &[u8], start: usize, out: &mut [u32]) -> Option<usize>
    requires n_in_bounds { n ≤ length out.old }
    requires start_in_bounds { start ≤ length text.now }
    ensures value { rest_of text.now result ≡ rest_in (numbers n (drop start text.now)) }
    ensures end_in_bounds { IfSome result (λ end. end ≤ length text.now) }
    ensures out_after { out.new ≡ sets out.old 0 (sound_numbers n (drop start text.now)) }
{
    let mut at = start;
    for i in 0..n {
        let number = number_at(text, at)?;
        at = behind_separator(n - i - 1, text, number.end)?;
        out[i] = number.value;
    }
    Some(at)
}

// The number of values on a line.
pub fn fields_of(kind: Kind) -> usize
    ensures value { result ≡ fields_of kind }
    ensures upper_bound { result ≤ 6 }
{
    match kind {
        Kind::TypeLine => 6,
        Kind::PredLine => 4,
        Kind::RoleLine => ROLE_FIELDS,
        Kind::LimitedRoleLine => LIMITED_ROLE_FIELDS,
        Kind::FreqLine => 2,
        Kind::DiagramLine | Kind::TypesLine | Kind::PredsLine | Kind::EndLine => 1,
    }
}

// The numbers of the line of this kind that starts at `at` go to the front of `out`; where the next line starts.
fn text_line(kind: Kind, text: &[u8], at: usize, out: &mut [u32]) -> Option<usize>
    requires { fields_of kind ≤ length out.old }
    ensures value { rest_of text.now result ≡ rest_in (text_line (kind_of kind) (drop at text.now)) }
    ensures end_in_bounds { IfSome result (λ end. end ≤ length text.now) }
    ensures out_after { out.new ≡ sets out.old 0 (line_numbers (kind_of kind) (drop at text.now)) }
{
    let values = behind_key(kind, text, at)?;
    numbers_at(fields_of(kind), text, values, out)
}

// The numbers of the line of this kind that starts at `at` go to the table at `end`, those before a fault too; where the next
// line starts. The table and an index, and no output: what a place tells of the numbers so far is where they end.
pub fn write_line(
    kind: Kind,
    text: &[u8],
    at: usize,
    table: &mut [u32],
    end: usize,
) -> Option<usize>
    requires { end + fields_of kind ≤ length table.old }
    ensures value { rest_of text.now result ≡ rest_in (text_line (kind_of kind) (drop at text.now)) }
    ensures end_in_bounds { IfSome result (λ end. end ≤ length text.now) }
    ensures table_after { table.new ≡ sets table.old end (line_numbers (kind_of kind) (drop at text.now)) }
{
    text_line(kind, text, at, &mut table[end..])
}
