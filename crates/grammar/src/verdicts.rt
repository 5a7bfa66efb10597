// The tests of a line, in their order: the first that fails decides.
ghost use Rattle.std.specs.Prelude.{◌≡◌, [], ◌≤◌, length, if◌then◌else◌};
ghost use Rattle.orm.specs.Diagram.{type_line, pred_line, freq_line, end_line, role_line_of};
ghost use Rattle.orm.specs.Form.{type_of, role_of, group_of, head_of, count_of, pred_tests, role_tests, end_tests};
ghost use Rattle.lexer.specs.Cuts.{kind_of};
ghost use Rattle.grammar.specs.Awaited.{role_fields_of};
ghost use Rattle.grammar.specs.Fault.{fault_of};
ghost use Rattle.grammar.specs.Step.{fault_in, type_tests_if, freq_tests};

use crate::Fault;
use crate::ranges::in_ranges;
use crate::tests::limits_in_order;
use lexer::Kind;

// The fault unless the test holds.
#[inline(always)]
fn require(holds: bool, fault: Fault) -> Result<(), Fault>
    ensures { result ≡ (if holds then Ok tt else Err fault) }
{
    if holds { Ok(()) } else { Err(fault) }
}

// A line with one number that has no test but its range.
#[tactic(auto, unfolding(orm::specs::Form::first_of))]
pub fn count_verdict(key: Kind, line: &[u32]) -> Result<(), Fault>
    ensures { fault_of result ≡ fault_in (kind_of key) line.now [] }
{
    require(in_ranges(key, line), Fault::OutOfRange)
}

// `ordered`: its FIRST and LAST may stand there.
#[tactic(auto, unfolding(orm::specs::Form::first_of))]
pub fn type_verdict(own: usize, ordered: bool, line: &[u32]) -> Result<(), Fault>
    requires { length line.now ≡ 6 }
    ensures { fault_of result ≡ fault_in type_line line.now (type_tests_if ordered own (type_of line.now)) }
{
    require(in_ranges(Kind::TypeLine, line), Fault::OutOfRange)?;
    require((line[4] as usize) < own, Fault::Unknown)?;
    require(line[0] <= line[1], Fault::Disordered)?;
    require(ordered, Fault::Disordered)
}

#[tactic(auto, unfolding(orm::specs::Form::first_of, orm::specs::Form::pred_tests, orm::specs::Form::most_roles, orm::specs::Form::most_groups))]
pub fn pred_verdict(roles: usize, groups: usize, line: &[u32]) -> Result<(), Fault>
    requires line_len { length line.now ≡ 4 }
    requires roles_bound { (roles ≤ 96) × (groups ≤ 48) }
    ensures { fault_of result ≡ fault_in pred_line line.now (pred_tests roles groups (head_of line.now)) }
{
    require(in_ranges(Kind::PredLine, line), Fault::OutOfRange)?;
    require(roles + line[2] as usize <= 96, Fault::OutOfRange)?;
    require(groups + line[3] as usize <= 48, Fault::OutOfRange)?;
    require(line[0] <= line[1], Fault::Disordered)
}

// A role line in a diagram of this kind. RMIN and RMAX come last, so that their line's ranges do for one without them.
#[inline(always)]
#[tactic(auto, using(crate::proofs::Faults::role_ranged, crate::proofs::Named::role_long), unfolding(orm::specs::Form::first_of, orm::specs::Form::role_tests))]
pub fn role_verdict(kind: usize, types: usize, groups: usize, line: &[u32]) -> Result<(), Fault>
    requires { length line.now ≡ role_fields_of kind }
    ensures { fault_of result ≡ fault_in (role_line_of kind) line.now (role_tests types groups (role_of kind line.now)) }
{
    require(in_ranges(Kind::LimitedRoleLine, line), Fault::OutOfRange)?;
    require(line[0] as usize <= types, Fault::Unknown)?;
    require(line[2] as usize <= groups, Fault::Unknown)?;
    require(limits_in_order(kind, line), Fault::Disordered)
}

#[tactic(auto, unfolding(orm::specs::Form::first_of))]
pub fn freq_verdict(used: bool, line: &[u32]) -> Result<(), Fault>
    requires { length line.now ≡ 2 }
    ensures { fault_of result ≡ fault_in freq_line line.now (freq_tests used (group_of line.now)) }
{
    require(in_ranges(Kind::FreqLine, line), Fault::OutOfRange)?;
    require(line[0] <= line[1], Fault::Disordered)?;
    require(used, Fault::Unnamed)
}

#[tactic(auto, unfolding(orm::specs::Form::first_of, orm::specs::Form::end_tests, orm::specs::Form::count_of))]
pub fn end_verdict(roles: usize, line: &[u32]) -> Result<(), Fault>
    requires { length line.now ≡ 1 }
    ensures { fault_of result ≡ fault_in end_line line.now (end_tests roles (count_of line.now)) }
{
    require(in_ranges(Kind::EndLine, line), Fault::OutOfRange)?;
    require(line[0] as usize == roles, Fault::Miscounted)
}
