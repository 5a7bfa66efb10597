// The pass over types: K1 to K4 and K10 of each, and K7, K8 and K11 of the roles that it plays. A type's members are sorted once; `list` and
// `spare` are scratch.
#![tactic(auto)]

ghost use Rattle.std.specs.Prelude.{◌≡◌, not, ◌||◌, ◌+◌, ◌*◌, ◌≤◌, ◌<◌, length, get_or, drop};
ghost use Rattle.counting.specs.Distinct.{all};
ghost use Rattle.orm.specs.Diagram.{must_play};
ghost use Rattle.orm.specs.Form.{type_of};
ghost use Rattle.orm.specs.Constraints.{K3};
ghost use Rattle.faults.specs.Faults.{lowered, faults_of};
ghost use Rattle.faults.specs.Passes.{subtype_faults, member_faults, type_faults};
ghost use Rattle.sorting.specs.Rising.{Rising};
ghost use Rattle.table.specs.Positions.{diagram_of, Walkable};
ghost use Rattle.columns.specs.Values.{values_in};
ghost use Rattle.lookup.specs.Stamps.{is_set};
ghost use Rattle.blocks.specs.Blocks.{members_at};
ghost use Rattle.blocks.specs.Starts.{Populated};
ghost use Rattle.playing.specs.Places.{population_of};
ghost use Rattle.types.specs.Members.{Room, Sized, Paired, Noted, roles_told};

use blocks::Blocks;
use columns::Column;
use faults::Faults;
use selection::players::{must_play, plays};

// The type at `line` of the table, the number of its block, and its own.
#[derive(Clone, Copy, Debug, PartialEq, Eq)]
struct Place {
    line: usize,
    block: usize,
    number: u32,
}

impl Place {
    // That of the type with index i.
    fn new(i: u32) -> Place
        requires { i < 32 }
        ensures line { result.line ≡ 2 + 6 * i }
        ensures block { result.block ≡ i }
        ensures number { result.number ≡ i + 1 }
    {
        Place {
            line: 2 + 6 * i as usize,
            block: i as usize,
            number: i + 1,
        }
    }
}

// K3: the values of a type that gives FIRST and LAST are FIRST to LAST; of members in order the first and the last tell.
fn is_in_range(t: &[u32], line: usize, list: &[u32]) -> bool
    requires walkable { Walkable t.now }
    requires rising { Rising list.now }
    ensures { result ≡ K3 (type_of (drop line t.now)) list.now }
{
    if !supertypes::has_range(t, line) {
        return true;
    }
    if list.is_empty() {
        return true;
    }
    let low = table::field(t, line, 2);
    let high = table::field(t, line, 3);
    // `&`: behind `&&` the goal stays open.
    (low <= list[0]) & (list[list.len() - 1] <= high)
}

// K4 of the type at a place, if it is below that with this number, whose members are in `list`.
fn note_below(blocks: &Blocks<'_>, number: u32, below: Place, list: &[u32], faults: &mut Faults)
    requires { Rising list.now }
    ensures { faults.new.lowest ≡ lowered (subtype_faults number list.now below.number (type_of (drop below.line blocks.now.table.now)) (members_at (drop (get_or blocks.now.starts.now below.block 0) blocks.now.cells.now))) faults.old.lowest }
{
    if table::field(blocks.table, below.line, 4) != number {
        return;
    }
    let kept = lookup::within(&blocks.members(below.block), list);
    faults.note(kept, 4, below.number);
}

// K4 of all types below that with this number.
fn subtypes_pass(blocks: &Blocks<'_>, number: u32, list: &[u32], faults: &mut Faults)
    requires { Rising list.now }
    ensures { faults.new.lowest ≡ lowered (faults_of (subtype_faults number list.now) 1 (diagram_of blocks.now.table.now).types (population_of blocks.now.table.now blocks.now.cells.now).types) faults.old.lowest }
{
    for i in 0..table::type_count(blocks.table) {
        note_below(blocks, number, Place::new(i), list, faults);
    }
}

// K10 of the type at a place, by the marks of its members: those of a type that must play are in a role.
fn all_play(t: &[u32], place: Place, marks: &[u32]) -> bool
    requires { Walkable t.now }
    ensures { result ≡ not (must_play (diagram_of t.now) place.number (type_of (drop place.line t.now))) || all is_set marks.now }
{
    let must = must_play(t, place.line, place.number, plays(t, place.number));
    !must || lookup::all_met(marks)
}

// K7, K8 and K11 of its roles, and K10, by its members in order.
fn roles_pass(
    blocks: &Blocks<'_>,
    place: Place,
    list: &[u32],
    marks: &mut [u32],
    faults: &mut Faults,
)
    requires populated { Populated blocks.now.table.now blocks.now.cells.now }
    requires paired { Paired list.now marks.old }
    ensures { faults.new.lowest ≡ roles_told (diagram_of blocks.now.table.now) (population_of blocks.now.table.now blocks.now.cells.now) place.number (type_of (drop place.line blocks.now.table.now)) list.now faults.old.lowest }
{
    marks.fill(0);
    playing::preds_pass(blocks, place.number, list, marks, faults);
    faults.note(all_play(blocks.table, place, marks), 10, place.number);
}

// The rest of a type whose K1 and K2 are kept, by its members in order: K3, K4 of the types below it, K7, K8 and K11 of its roles and K10.
fn members_pass(
    blocks: &Blocks<'_>,
    place: Place,
    list: &[u32],
    marks: &mut [u32],
    faults: &mut Faults,
)
    requires populated { Populated blocks.now.table.now blocks.now.cells.now }
    requires paired { Paired list.now marks.old }
    ensures { faults.new.lowest ≡ lowered (member_faults (diagram_of blocks.now.table.now) (population_of blocks.now.table.now blocks.now.cells.now) place.number (type_of (drop place.line blocks.now.table.now)) list.now) faults.old.lowest }
{
    let ranged = is_in_range(blocks.table, place.line, list);
    faults.note(ranged, 3, place.number);
    subtypes_pass(blocks, place.number, list, faults);
    roles_pass(blocks, place, list, marks, faults);
}

// K1, by whether its members differ, and K2: whether both are kept.
fn note_size(t: &[u32], place: Place, size: usize, differ: bool, faults: &mut Faults) -> bool
    requires { Walkable t.now }
    ensures { Noted (type_of (drop place.line t.now)) place.number size differ faults.old.lowest faults.new.lowest result }
{
    let low = table::field(t, place.line, 0);
    let sized = columns::in_range(low, table::field(t, place.line, 1), size);
    faults.note(differ, 1, place.number);
    faults.note(sized, 2, place.number);
    // `&`: behind `&&` the goal stays open.
    differ & sized
}

// All of the type, by scratch as long as it has members.
fn sorted_pass(
    blocks: &Blocks<'_>,
    place: Place,
    members: &Column<'_>,
    list: &mut [u32],
    spare: &mut [u32],
    faults: &mut Faults,
)
    requires populated { Populated blocks.now.table.now blocks.now.cells.now }
    requires sized { Sized members.now list.old spare.old }
    ensures { faults.new.lowest ≡ lowered (type_faults (diagram_of blocks.now.table.now) (population_of blocks.now.table.now blocks.now.cells.now) place.number (type_of (drop place.line blocks.now.table.now)) (values_in members.now)) faults.old.lowest }
{
    let differ = order::sort_values(members, list, spare);
    if note_size(blocks.table, place, members.count, differ, faults) {
        members_pass(blocks, place, list, spare, faults);
    }
}

// All of the type.
fn type_pass(
    blocks: &Blocks<'_>,
    place: Place,
    list: &mut [u32],
    spare: &mut [u32],
    faults: &mut Faults,
)
    requires populated { Populated blocks.now.table.now blocks.now.cells.now }
    requires room { Room blocks.now.cells.now list.old spare.old }
    requires max_bound { (type_of (drop place.line blocks.now.table.now)).max ≤ 4096 }
    ensures { faults.new.lowest ≡ lowered (type_faults (diagram_of blocks.now.table.now) (population_of blocks.now.table.now blocks.now.cells.now) place.number (type_of (drop place.line blocks.now.table.now)) (members_at (drop (get_or blocks.now.starts.now place.block 0) blocks.now.cells.now))) faults.old.lowest }
{
    let members = blocks.members(place.block);
    let count = members.count;
    if list.len() < count {
        note_size(blocks.table, place, count, members.differ(), faults);
        return;
    }
    sorted_pass(
        blocks,
        place,
        &members,
        &mut list[..count],
        &mut spare[..count],
        faults,
    );
}

// Of all types.
pub fn pass(blocks: &Blocks<'_>, list: &mut [u32], spare: &mut [u32], faults: &mut Faults)
    requires populated { Populated blocks.now.table.now blocks.now.cells.now }
    requires room { Room blocks.now.cells.now list.old spare.old }
    ensures { faults.new.lowest ≡ lowered (faults_of (type_faults (diagram_of blocks.now.table.now) (population_of blocks.now.table.now blocks.now.cells.now)) 1 (diagram_of blocks.now.table.now).types (population_of blocks.now.table.now blocks.now.cells.now).types) faults.old.lowest }
{
    for i in 0..table::type_count(blocks.table) {
        type_pass(blocks, Place::new(i), list, spare, faults);
    }
}
