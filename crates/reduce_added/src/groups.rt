// The same-choosers groups: the choices that kind 10 rows join.
ghost use Rattle.std.specs.Prelude.{◌≡◌, ◌≤◌, min, length};
ghost use Rattle.day_rows.specs.Told.{done, outcome};
ghost use Rattle.reduce_union_find.specs.State.{join_from, join_all};
ghost use Rattle.reduce_union_find.specs.Groups.{groups_written};
ghost use Rattle.reduce_added.specs.Groups.{join_one, joins, same_choosers};
ghost use Rattle.reduce_added.specs.steps.Fit.{ends_fit, groups_fit};

use day_rows::kind::Kind;
use day_rows::row::Row;
use reduce_union_find::UnionFind;

// Members by group, as they are lent: one group after another, and where each group ends.
#[derive(Clone, Copy)]
pub struct Grouped<'a> {
    pub members: &'a [u16],
    pub ends: &'a [u8],
}

// The groups one after another, and where each of so many ends.
#[derive(Clone, Copy)]
pub struct SameChoosers {
    pub members: [u16; 64],
    pub ends: [u8; 64],
    pub count: usize,
}

// The record of union-find after one row: its two choices joined if it is of kind 10.
fn join_one(choices: usize, state: UnionFind, number: u64) -> UnionFind
    ensures { result ≡ join_from choices state (join_one number) }
{
    let row = Row::from(number);
    if row.kind != Kind::CHOICES_HAVE_SAME_CHOOSERS {
        return state;
    }
    let left = usize::from(row.left);
    let right = usize::from(row.right);
    let joined = state.join(choices, left, right);
    joined.state
}

// The record of union-find after all rows: those of kind 10 joined in given order.
fn join_rows(choices: usize, rows: &[u64]) -> UnionFind
    ensures { result ≡ join_all choices (joins rows.now) }
{
    let mut state = UnionFind::new();
    for row in rows {
        state = join_one(choices, state, *row);
    }
    state
}

// Writes the groups, one after another, and where each ends; the answer is how many they are.
fn write_groups(choices: usize, rows: &[u64], members: &mut [u8], ends: &mut [u8]) -> usize
    requires { (choices ≤ 64) × (length members.old ≡ 64) × (length ends.old ≡ 64) }
    ensures { let groups = same_choosers choices rows.now in
        outcome (done result) (members.new, ends.new) ≡ groups_written groups }
{
    let state = join_rows(choices, rows);
    let Ok(count) = state.groups(choices, members, ends) else {
        return 0;
    };
    count
}

// The members of groups as numbers of choices.
fn widened(members: &[u8]) -> [u16; 64]
    requires { length members.now ≡ 64 }
    ensures { result ≡ members.now }
{
    let mut choices = [0u16; 64];
    for (i, member) in members.iter().enumerate() {
        choices[i] = u16::from(*member);
    }
    choices
}

// The groups of the first 64 choices, their members as numbers of choices.
pub fn groups(choices: usize, rows: &[u64]) -> SameChoosers
    ensures { let groups = same_choosers (min 64 choices) rows.now in
        outcome (done result.count) (result.members, result.ends) ≡ groups_written groups }
{
    let mut narrow = [0u8; 64];
    let mut ends = [0u8; 64];
    let count = write_groups(choices.min(64), rows, &mut narrow, &mut ends);
    let members = widened(&narrow);
    SameChoosers {
        members,
        ends,
        count,
    }
}

// Whether the ends don't fall, and none is past the size.
fn ends_fit(ends: &[u8], size: usize) -> bool
    ensures { result ≡ ends_fit 0 ends.now size }
{
    let mut start = 0;
    for byte in ends {
        let end = usize::from(*byte);
        if end < start {
            return false;
        }
        if size < end {
            return false;
        }
        start = end;
    }
    true
}

// Whether groups lie in their pools as those of a day do: what is written for them is then a number that
// fits.
pub fn groups_fit(groups: &Grouped) -> bool
    ensures { let groups = groups.now in result ≡ groups_fit groups.members.now groups.ends.now }
{
    if 64 < groups.members.len() {
        return false;
    }
    if 64 < groups.ends.len() {
        return false;
    }
    ends_fit(groups.ends, groups.members.len())
}
