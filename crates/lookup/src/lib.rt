// Values looked up among members that rise: whether all are there, and which members are met.
//
// A member that is met gets a stamp, so that of many columns, each with a higher stamp, it is known which members were met at all
// and how many in the last one.
#![tactic(auto)]

ghost use Rattle.std.specs.Prelude.{◌≡◌, ◌+◌, ◌≤◌, ◌<◌, eqb};
ghost use Rattle.counting.specs.Distinct.{all, within};
ghost use Rattle.sorting.specs.Rising.{Rising};
ghost use Rattle.columns.specs.Values.{values_in};
ghost use Rattle.lookup.specs.Stamps.{is_set, Marked};
ghost use Rattle.lookup.specs.Counts.{Fresh, Next, Looked};

use columns::Column;

// Every value of the column is in the list.
pub fn within(values: &Column<'_>, list: &[u32]) -> bool
    requires { Rising list.now }
    ensures { result ≡ within eqb (values_in values.now) list.now }
{
    for i in 0..values.count {
        if order::place(list, values.value(i)).is_none() {
            return false;
        }
    }
    true
}

// Whether all values so far are members, and how many members are met.
#[derive(Clone, Copy, Debug, PartialEq, Eq)]
struct Met {
    all: bool,
    count: usize,
}

// x is looked up, and met where it is a member.
fn meet_value(list: &[u32], x: u32, marks: &mut [u32], stamp: u32, met: Met) -> Met
    requires marked { Marked list.now marks.old }
    requires count_bound { met.count < 18446744073709551615 }
    ensures next { Next list.now stamp x marks.old met marks.new result }
    ensures count_bound_2 { result.count ≤ met.count + 1 }
{
    let Some(i) = order::place(list, x) else {
        return Met {
            all: false,
            count: met.count,
        };
    };
    if marks[i] == stamp {
        return met;
    }
    marks[i] = stamp;
    Met {
        all: met.all,
        count: met.count + 1,
    }
}

// The values of the column are looked up, from the last to the first, and the members among them met: how many, as `Ok` where all values
// are members and as `Err` where not all are.
pub fn meet(
    values: &Column<'_>,
    list: &[u32],
    marks: &mut [u32],
    stamp: u32,
) -> Result<usize, usize>
    requires { Fresh list.now marks.old stamp }
    ensures { Looked list.now marks.old stamp (values_in values.now) marks.new result }
{
    let mut met = Met {
        all: true,
        count: 0,
    };
    for i in (0..values.count).rev() {
        met = meet_value(list, values.value(i), marks, stamp, met);
    }
    if met.all {
        Ok(met.count)
    } else {
        Err(met.count)
    }
}

// Every member was met.
pub fn all_met(marks: &[u32]) -> bool
    ensures { result ≡ all is_set marks.now }
{
    !marks.contains(&0)
}
