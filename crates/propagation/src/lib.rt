// One limit at a time, on upper bounds that the caller keeps: those that the rounds start from, one limit
// put to use on them, and whether any limit lowers one. Limits have numbers, from 0.
#![tactic(auto)]

ghost use Rattle.std.specs.Prelude.{◌≡◌, length, Ok};
ghost use Rattle.orm.specs.Text.{table_line};
ghost use Rattle.orm.specs.Outcome.{accepted, fitted, length_of, buffer_after};
ghost use Rattle.orm.specs.Calls.{diagram_in};
ghost use Rattle.orm.specs.Sets.{upper};
ghost use Rattle.orm.specs.SingleLimits.{start_call, lower_call, survey_call, bounds_of, found_of};
ghost use Rattle.table.specs.Positions.{diagram_of};
ghost use Rattle.lowering.specs.Coded.{limit_of, limits_of};
ghost use Rattle.lowering.specs.Closed.{Within, Closed};
ghost use Rattle.limits.specs.Prepared.{most_sets};
ghost use Rattle.reader.specs.Answer.{conversion_of};
ghost use Rattle.propagation.specs.Answer.{propagation_of, Converted, Stepped, Surveyed, apply_on, lower_on, survey_on};
ghost use Rattle.propagation.specs.Posed.{Counted, Bounded, Roomy, Posed};

use limits::Writer;
use lowering::{Limit, Limits};
use refusals::Refusal;
use widening::MOST_NUMBERS;

// Whether a limit lowers an upper bound; and of how many sets there are bounds, or how many limits were
// asked.
#[derive(Clone, Copy, Debug, PartialEq, Eq)]
pub struct Found {
    pub lowers: bool,
    pub count: usize,
}

// ---- the limits

// Of a valid table with so many roles and sets; `types` is scratch.
fn ready(t: &[u32], roles: usize, sets: usize, types: &mut [u32], out: &mut Writer<'_>)
    requires counted { Counted t.now roles sets }
    requires types_len { length types.old ≡ most_sets }
    requires room { Roomy out.old }
    ensures { Posed (accepted (diagram_of t.now)) (Ok sets) out.new }
{
    limits::limits_of(t, limits::count(roles), types, out);
}

// Writes the limits of a table's diagram; between how many sets they are.
fn pose(table: &[u32], out: &mut Writer<'_>) -> Result<usize, Refusal>
    requires { Roomy out.old }
    ensures { Posed (diagram_in table_line table.now) result out.new }
{
    let mut wide = [0; MOST_NUMBERS];
    let widened = widening::accept(table, &mut wide)?;
    let sets = widened.set_count();
    let mut types = limits::set_space();
    ready(
        &wide[..widened.length],
        widened.roles,
        sets,
        &mut types,
        out,
    );
    Ok(sets)
}

// Puts the limit to use on the bounds of the first `sets` sets.
fn apply(limit: Limit, operands: &[u32], sets: usize, sizes: &mut [u32]) -> Result<Found, Refusal>
    requires { Within sets operands.now limit }
    ensures { Stepped (apply_on (limit_of operands.now limit) sets sizes.old) result sizes.old sizes.new }
{
    if sizes.len() < sets {
        return Err(Refusal::TooShort { needed: sets });
    }
    let lowers = lowering::lower(limit, operands, &mut sizes[..sets]);
    Ok(Found {
        lowers,
        count: sets,
    })
}

// Puts the limit with this number to use.
fn lower_front(
    limits: &Limits<'_>,
    sets: usize,
    number: u32,
    sizes: &mut [u32],
) -> Result<Found, Refusal>
    requires { Closed sets limits.now }
    ensures { Stepped (lower_on (limits_of limits.now) sets number sizes.old) result sizes.old sizes.new }
{
    match steps::find(limits, number as usize) {
        None => Err(Refusal::NoSuch { number }),
        Some(limit) => apply(limit, limits.operands, sets, sizes),
    }
}

// Whether any limit lowers one of the bounds of the first `sets` sets.
fn survey_front(limits: &Limits<'_>, sets: usize, sizes: &[u32]) -> Result<Found, Refusal>
    requires { Closed sets limits.now }
    ensures { Surveyed (survey_on (limits_of limits.now) sets sizes.now) result }
{
    if sizes.len() < sets {
        return Err(Refusal::TooShort { needed: sets });
    }
    let lowers = steps::any_lowers(limits, &sizes[..sets]);
    Ok(Found {
        lowers,
        count: steps::count(limits),
    })
}

// ---- of a table; `out` is scratch

// Of a valid table with so many groups and sets: the bounds go to the front of the buffer if it is long enough.
fn fit(t: &[u32], groups: usize, sets: usize, sizes: &mut [u32]) -> Result<usize, Refusal>
    requires { Bounded t.now groups sets }
    ensures { Converted (fitted (length sizes.old) (upper (diagram_of t.now))) result sizes.old
        sizes.new }
{
    if sizes.len() < sets {
        return Err(Refusal::TooShort { needed: sets });
    }
    limits::write_upper(t, limits::count(groups), sizes);
    Ok(sets)
}

fn lower_in(
    table: &[u32],
    number: u32,
    out: &mut Writer<'_>,
    sizes: &mut [u32],
) -> Result<Found, Refusal>
    requires { Roomy out.old }
    ensures { Stepped (lower_call table.now number sizes.old) result sizes.old sizes.new }
{
    let sets = pose(table, out)?;
    lower_front(&out.limits(), sets, number, sizes)
}

fn survey_in(table: &[u32], out: &mut Writer<'_>, sizes: &[u32]) -> Result<Found, Refusal>
    requires { Roomy out.old }
    ensures { Surveyed (survey_call table.now sizes.now) result }
{
    let sets = pose(table, out)?;
    survey_front(&out.limits(), sets, sizes)
}

// ---- the calls

// Writes the upper bound of each set of a table's diagram that the rounds start from, in set order, and
// tells how many there are. It refuses the table (1 to 6), and a buffer that is too short (8).
pub fn start(table: &[u32], sizes: &mut [u32]) -> Result<usize, Refusal>
    ensures result_value { conversion_of result ≡ length_of (start_call table.now (length sizes.old)) }
    ensures sizes_after { sizes.new ≡ buffer_after (start_call table.now (length sizes.old)) sizes.old }
{
    let mut wide = [0; MOST_NUMBERS];
    let widened = widening::accept(table, &mut wide)?;
    fit(
        &wide[..widened.length],
        widened.groups,
        widened.set_count(),
        sizes,
    )
}

// Puts the limit of a table's diagram with this number to use on the upper bounds at the front of `sizes`.
// It refuses the table (1 to 6), a number that no limit has (10), and fewer bounds than sets (8).
pub fn lower(table: &[u32], number: u32, sizes: &mut [u32]) -> Result<Found, Refusal>
    ensures result_value { propagation_of result ≡ found_of (lower_call table.now number sizes.old) }
    ensures sizes_after { sizes.new ≡ buffer_after (bounds_of (lower_call table.now number sizes.old)) sizes.old }
{
    let mut limits = [limits::NO_LIMIT; limits::MOST_LIMITS];
    let mut operands = [0u32; limits::MOST_OPERANDS];
    let mut out = Writer::new(&mut limits, &mut operands);
    lower_in(table, number, &mut out, sizes)
}

// Whether any limit of a table's diagram lowers one of the upper bounds at the front of `sizes`, and how
// many limits there are. It refuses the table (1 to 6), and fewer bounds than sets (8).
pub fn survey(table: &[u32], sizes: &[u32]) -> Result<Found, Refusal>
    ensures { propagation_of result ≡ survey_call table.now sizes.now }
{
    let mut limits = [limits::NO_LIMIT; limits::MOST_LIMITS];
    let mut operands = [0u32; limits::MOST_OPERANDS];
    let mut out = Writer::new(&mut limits, &mut operands);
    survey_in(table, &mut out, sizes)
}
