// The copies of rows: 'for each row of kind 11 or 12, the same row for every other member of its choice's
// group.'
ghost use Rattle.std.specs.Prelude.{◌≡◌, eqb};
ghost use mathlib.Core.List.{flat_map};
ghost use Rattle.base_lists.specs.Keep.{any_of};
ghost use Rattle.reduce_turn.specs.steps.Free.{Wrote, Filled, Countable};
ghost use Rattle.reduce_added.specs.Copies.{copy_to, copies_in, is_copied, copies_of, copies_all};
ghost use Rattle.reduce_added.specs.steps.Fit.{groups_lent, Lie, copies_for};

use super::groups::{Grouped, groups_fit};
use day_rows::kind::Kind;
use day_rows::number::{Choice, Chooser};
use day_rows::row::Row;
use reduce_turn::free::Free;

// Whether a group holds a choice.
fn holds(group: &[u16], choice: u16) -> bool
    ensures { result ≡ any_of (eqb choice) group.now }
{
    for member in group {
        if *member == choice {
            return true;
        }
    }
    false
}

// Writes the row for one member, unless it is the row's own choice.
fn copy_to(row: Row, member: u16, free: &mut Free)
    requires { Countable free.old.at (copy_to row member) }
    ensures { Filled free.old (copy_to row member) free.new }
{
    if member == row.right {
        return;
    }
    let copy = Row::chooser_choice(row.kind, Chooser(row.left), Choice(member));
    free.put(u64::from(copy));
}

// Writes the row for the other members of a group that holds its choice.
fn copies_in(row: Row, group: &[u16], free: &mut Free)
    requires { Countable free.old.at (copies_in row group.now) }
    ensures { Filled free.old (copies_in row group.now) free.new }
{
    if !holds(group, row.right) {
        return;
    }
    for member in group {
        copy_to(row, *member, free);
    }
}

// Writes the copies of one row of kind 11 or 12.
fn copies_of(row: Row, groups: &Grouped, free: &mut Free)
    requires { let copied = flat_map (copies_in row) (groups_lent groups.now) in
        Lie groups.now × Countable free.old.at copied }
    ensures { let copied = flat_map (copies_in row) (groups_lent groups.now) in
        Filled free.old copied free.new }
{
    let members = groups.members;
    let mut start = 0;
    for byte in groups.ends {
        let end = usize::from(*byte);
        copies_in(row, &members[start..end], free);
        start = end;
    }
}

// Whether a row names a chooser and a choice: kind 11 or 12.
fn is_copied(kind: u16) -> bool
    ensures { result ≡ is_copied kind }
{
    kind == Kind::CHOOSER_IS_IN_CHOICE || kind == Kind::CHOOSER_IS_NOT_IN_CHOICE
}

// Writes the copies of one row, none for other kinds.
fn copies_for(number: u64, groups: &Grouped, free: &mut Free)
    requires { Lie groups.now × Countable free.old.at (copies_of (groups_lent groups.now) number) }
    ensures { Filled free.old (copies_of (groups_lent groups.now) number) free.new }
{
    let row = Row::from(number);
    if !is_copied(row.kind) {
        return;
    }
    copies_of(row, groups, free);
}

// Writes the copies of every row; the answer is how many they are.
fn write_copies(rows: &[u64], groups: &Grouped, free: &mut [u64]) -> usize
    requires { Lie groups.now × Countable 0 (copies_all (groups_lent groups.now) rows.now) }
    ensures { let copied = copies_all (groups_lent groups.now) rows.now in
        Wrote free.old 0 copied result free.new }
{
    let mut end = Free { rows: free, at: 0 };
    for row in rows {
        copies_for(*row, groups, &mut end);
    }
    end.at
}

// Writes the copies of every row, none if rows or groups are more than a day has; the answer is how many they
// are.
pub fn copies(rows: &[u64], groups: &Grouped, free: &mut [u64]) -> usize
    ensures { let copied = copies_for groups.now.members.now groups.now.ends.now rows.now in
        Wrote free.old 0 copied result free.new }
{
    if 128 < rows.len() {
        return 0;
    }
    if !groups_fit(groups) {
        return 0;
    }
    write_copies(rows, groups, free)
}
