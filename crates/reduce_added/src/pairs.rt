// The pairs: 'a kind 4 row for each pair i < j of positions in each same-choosers group (kind 10), and in
// each chooser's list of kind 11 choices'.
ghost use Rattle.std.specs.Prelude.{◌≡◌, map, ◌+◌, ◌≤◌, ◌<◌, length, get_or};
ghost use Rattle.reduce_turn.specs.steps.Free.{Wrote, Filled, Countable};
ghost use Rattle.reduce_added.specs.Pairs.{pair_row, pairs_of, group_pairs, mandatory_one, mandatory, mandatory_pairs};
ghost use Rattle.reduce_added.specs.steps.Fit.{groups_lent, Lie};
ghost use Rattle.reduce_added.specs.steps.Limits.{pairs_in_groups, pairs_of_choosers};
ghost use Rattle.reduce_added.specs.steps.Marks.{MarkedOne, Marked};

use super::groups::{Grouped, groups_fit};
use day_rows::kind::Kind;
use day_rows::row::Row;
use reduce_turn::free::Free;
use reduce_turn::pair::pair_row;

// Writes the pairs of one choice with each of a list.
fn pairs_with(left: u16, list: &[u16], free: &mut Free)
    requires { Countable free.old.at (map (pair_row left) list.now) }
    ensures { Filled free.old (map (pair_row left) list.now) free.new }
{
    for right in list {
        free.put(u64::from(pair_row(left, *right)));
    }
}

// Writes the pairs of a list, each position with those after it.
fn pairs_of(list: &[u16], free: &mut Free)
    requires { Countable free.old.at (pairs_of list.now) }
    ensures { Filled free.old (pairs_of list.now) free.new }
{
    for (i, left) in list.iter().enumerate() {
        pairs_with(*left, &list[i + 1..], free);
    }
}

// Writes the pairs of each group; the answer is how many they are.
fn write_group_pairs(groups: &Grouped, free: &mut [u64]) -> usize
    requires { Lie groups.now × Countable 0 (group_pairs (groups_lent groups.now)) }
    ensures { let pairs = group_pairs (groups_lent groups.now) in
        Wrote free.old 0 pairs result free.new }
{
    let members = groups.members;
    let mut pool = Free { rows: free, at: 0 };
    let mut start = 0;
    for byte in groups.ends {
        let end = usize::from(*byte);
        pairs_of(&members[start..end], &mut pool);
        start = end;
    }
    pool.at
}

// Writes the pairs of each group, none if the groups are more than a day has; the answer is how many they
// are.
pub fn group_pairs(groups: &Grouped, free: &mut [u64]) -> usize
    ensures { let pairs = pairs_in_groups groups.now.members.now groups.now.ends.now in
        Wrote free.old 0 pairs result free.new }
{
    if !groups_fit(groups) {
        return 0;
    }
    write_group_pairs(groups, free)
}

// Writes the choice of a row into a chooser's list, if it is of kind 11 and the chooser's; the answer is the
// place after it.
fn list_one(number: u64, chooser: usize, list: &mut [u16], at: usize) -> usize
    requires { at + length (mandatory_one chooser number) ≤ length list.old }
    ensures { Wrote list.old at (mandatory_one chooser number) result list.new }
{
    let row = Row::from(number);
    if row.kind != Kind::CHOOSER_IS_IN_CHOICE {
        return at;
    }
    if usize::from(row.left) != chooser {
        return at;
    }
    list[at] = row.right;
    at + 1
}

// Writes a 'chooser's list of kind 11 choices in given order, duplicates kept'; the answer is how many they
// are.
fn mandatory(rows: &[u64], chooser: usize, list: &mut [u16]) -> usize
    requires { length rows.now ≤ length list.old }
    ensures { Wrote list.old 0 (mandatory rows.now chooser) result list.new }
{
    let mut at = 0;
    for row in rows {
        at = list_one(*row, chooser, list, at);
    }
    at
}

// Marks the chooser of a row, if it is of kind 11.
fn mark_one(number: u64, named: &mut [u8])
    ensures { MarkedOne number named.old named.new }
{
    let row = Row::from(number);
    if row.kind != Kind::CHOOSER_IS_IN_CHOICE {
        return;
    }
    let at = usize::from(row.left);
    if at >= named.len() {
        return;
    }
    named[at] = 1;
}

// Marks each chooser that a row of kind 11 names.
fn mark(rows: &[u64], named: &mut [u8])
    ensures { Marked rows.now named.new }
{
    for row in rows {
        mark_one(*row, named);
    }
}

// Whether a chooser is named by a row of kind 11, as its flag tells; past the flags it is taken to be.
fn named_at(named: &[u8], chooser: usize) -> u8
    ensures { let flags = named.now in
        (result ≡ 0 → (chooser < length flags) × (get_or flags chooser 0 ≡ 0)) }
{
    if chooser >= named.len() {
        return 1;
    }
    named[chooser]
}

// Writes the pairs of a chooser's list, which is empty if its flag is zero.
fn pairs_for(rows: &[u64], named: &[u8], chooser: usize, list: &mut [u16], free: &mut Free)
    requires { (length rows.now ≤ length list.old)
        × Marked rows.now named.now
        × Countable free.old.at (pairs_of (mandatory rows.now chooser)) }
    ensures { Filled free.old (pairs_of (mandatory rows.now chooser)) free.new }
{
    if named_at(named, chooser) == 0 {
        return;
    }
    let count = mandatory(rows, chooser, list);
    pairs_of(&list[..count], free);
}

// Writes the pairs of each chooser's list; the answer is how many they are.
fn write_mandatory_pairs(choosers: usize, rows: &[u64], free: &mut [u64]) -> usize
    requires { (length rows.now ≤ 128) × Countable 0 (mandatory_pairs rows.now choosers) }
    ensures { Wrote free.old 0 (mandatory_pairs rows.now choosers) result free.new }
{
    let mut list = [0u16; 128];
    let mut named = [0u8; 256];
    mark(rows, &mut named);
    let mut end = Free { rows: free, at: 0 };
    for chooser in 0..choosers {
        pairs_for(rows, &named, chooser, &mut list, &mut end);
    }
    end.at
}

// Writes the pairs of each chooser's list, none if rows or choosers are more than a day has; the answer is
// how many they are.
pub fn mandatory_pairs(choosers: usize, rows: &[u64], free: &mut [u64]) -> usize
    ensures { Wrote free.old 0 (pairs_of_choosers rows.now choosers) result free.new }
{
    if 128 < rows.len() {
        return 0;
    }
    if 200 < choosers {
        return 0;
    }
    write_mandatory_pairs(choosers, rows, free)
}
