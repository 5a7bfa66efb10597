// The table of a file, checked and written with role lines of one width: what every other crate walks.
// In `diagram=1` 1 and 4096 come behind the numbers of each role line, which limit nothing.
#![tactic(auto)]

ghost use Rattle.std.specs.Prelude.{◌≡◌, ◌+◌, ◌*◌, ◌≤◌, length, replicate};
ghost use Rattle.orm.specs.Text.{table_line};
ghost use Rattle.orm.specs.Outcome.{buffer_after};
ghost use Rattle.orm.specs.Calls.{diagram_in};
ghost use Rattle.orm.specs.Form.{role_fields};
ghost use Rattle.reading.specs.WideTable.{most_numbers};
ghost use Rattle.buffer.specs.Written.{Wrote, WroteAll};
ghost use Rattle.widening.specs.Widened.{role_widened, roles_widened, pred_fields, pred_widened, preds_fields, preds_widened, plain_fields, plain_widened, table_widened, Inside};
ghost use Rattle.widening.specs.Answer.{acceptance_of, described, widened, Few};

use buffer::Output;
use lexer::lines::ROLE_FIELDS;
pub use reader::MOST_NUMBERS;
use refusals::Refusal;

// What a role line without RMIN and RMAX has in their place.
const RMIN: u32 = 1;

const RMAX: u32 = 4096;

// A table that was accepted: the length of the widened one, and what its diagram has.
#[derive(Clone, Copy, Debug, PartialEq, Eq)]
pub struct Widened {
    pub length: usize,
    pub types: usize,
    pub preds: usize,
    pub roles: usize,
    pub groups: usize,
}

// ---- lines

// A role line of three numbers.
fn push_role(out: &mut Output<'_, u32>, role: &[u32])
    requires { length role.now ≡ role_fields }
    ensures { Wrote out.old (role_widened role.now) out.new }
{
    out.append(role);
    out.push(RMIN);
    out.push(RMAX);
}

// `count` role lines.
fn push_roles(out: &mut Output<'_, u32>, roles: &[u32], count: usize)
    requires { role_fields * count ≤ length roles.now }
    ensures { Wrote out.old (roles_widened count roles.now) out.new }
{
    for i in 0..count {
        let at = ROLE_FIELDS * i;
        push_role(out, &roles[at..at + ROLE_FIELDS]);
    }
}

// The predicate at the front of the slice; how many numbers of the file it takes.
fn push_pred(out: &mut Output<'_, u32>, pred: &[u32]) -> usize
    requires { pred_fields pred.now ≤ length pred.now }
    ensures wrote { Wrote out.old (pred_widened pred.now) out.new }
    ensures value { result ≡ pred_fields pred.now }
{
    let roles = pred[2] as usize;
    let groups = 4 + ROLE_FIELDS * roles;
    let end = groups + 2 * pred[3] as usize;
    out.append(&pred[..4]);
    push_roles(out, &pred[4..], roles);
    out.append(&pred[groups..end]);
    end
}

// `count` predicates.
fn push_preds(out: &mut Output<'_, u32>, preds: &[u32], count: usize)
    requires { preds_fields count preds.now ≤ length preds.now }
    ensures { Wrote out.old (preds_widened count preds.now) out.new }
{
    let mut at = 0;
    for _ in 0..count {
        at += push_pred(out, &preds[at..]);
    }
}

// ---- the table

// A table of `diagram=1`, with so many types and predicates.
fn widen_plain(out: &mut Output<'_, u32>, table: &[u32], types: usize, preds: usize)
    requires { plain_fields types preds table.now ≤ length table.now }
    ensures { Wrote out.old (plain_widened types preds table.now) out.new }
{
    let first = 3 + 6 * types;
    out.append(&table[..first]);
    push_preds(out, &table[first..], preds);
    out.append(&table[table.len() - 1..]);
}

// A table of either kind; in `diagram=2` its role lines are as wide already.
#[tactic(auto, unfolding(crate::specs::Widened::table_widened, orm::specs::Diagram::limits_roles))]
fn widen(out: &mut Output<'_, u32>, table: &[u32], types: usize, preds: usize)
    requires { Inside types preds table.now }
    ensures { Wrote out.old (table_widened types preds table.now) out.new }
{
    if table[0] == 2 {
        out.append(table);
    } else {
        widen_plain(out, table, types, preds);
    }
}

// The same from the front of a slice on; the index behind.
fn widen_to(table: &[u32], types: usize, preds: usize, wide: &mut [u32]) -> usize
    requires { Inside types preds table.now }
    ensures { WroteAll wide.old (table_widened types preds table.now) wide.new result }
{
    let mut out = Output::new(wide);
    widen(&mut out, table, types, preds);
    out.at
}

// Room for every table.
pub fn scratch() -> [u32; MOST_NUMBERS]
    ensures { result ≡ replicate most_numbers 0 }
{
    [0u32; MOST_NUMBERS]
}

// Tells whether a table is that of a diagram, as `reader::form` does, and writes it with role lines of one
// width to the front of `wide`. A refused call (1 to 6) writes nothing.
pub fn accept(table: &[u32], wide: &mut [u32]) -> Result<Widened, Refusal>
    requires { length wide.old ≡ most_numbers }
    ensures result_value { acceptance_of result ≡ described (diagram_in table_line table.now) }
    ensures wide_after { wide.new ≡ buffer_after (widened table.now) wide.old }
{
    let totals = reader::form(table)?;
    Ok(Widened {
        length: widen_to(table, totals.types, totals.preds, wide),
        types: totals.types,
        preds: totals.preds,
        roles: totals.roles,
        groups: totals.groups,
    })
}

impl Widened {
    // How many sets the diagram has.
    pub fn set_count(self) -> usize
        requires { Few self.types self.preds self.roles self.groups }
        ensures { result ≡ self.types + self.preds + self.roles + self.groups }
    {
        self.types + self.preds + self.roles + self.groups
    }
}
