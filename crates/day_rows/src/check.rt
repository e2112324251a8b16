// The row check: the table of kinds held against each row of a list.
ghost use Rattle.std.specs.Prelude.{◌≡◌, true};
ghost use Rattle.day_rows.specs.Kinds.{columns_of};
ghost use Rattle.day_rows.specs.Row.{row_of};
ghost use Rattle.day_rows.specs.Told.{tells};
ghost use Rattle.day_rows.specs.Check.{takes_part, column_holds, row_keeps, most_rows, counts_in_range, rows_judged, check_of};

use super::kind::Kind;
use super::op::Op;
use super::refusal::Refusal;
use super::row::Row;
use super::table::{Columns, Name, Part};

// A day's counts as a call is given them: any numbers.
#[derive(Clone, Copy, PartialEq, Eq)]
pub struct Counts {
    pub choices: usize,
    pub slots: usize,
    pub choosers: usize,
    pub rows: usize,
}

// Which list a call takes, with its kinds: a day's given rows (all that the table has), the search's (1 to
// 6), or the roster's (10 to 13).
#[derive(Clone, Copy, PartialEq, Eq)]
pub enum Takes {
    Given,
    Scheduling,
    Assignment,
}

// Whether a call takes kinds of this part of the table.
fn takes_part(takes: Takes, part: Part) -> bool
    ensures { result ≡ takes_part takes part }
{
    match takes {
        Takes::Given => part != Part::Refused,
        Takes::Scheduling => part == Part::Scheduling,
        Takes::Assignment => part == Part::Assignment,
    }
}

// Whether a column that names this may hold the value: a number under its count, any limit, an offset, an op;
// 'Extra is 0 elsewhere'.
fn column_holds(counts: Counts, names: Name, value: u16) -> bool
    ensures { result ≡ column_holds counts names value }
{
    match names {
        Name::None => value == Row::NO_EXTRA,
        Name::Choice => usize::from(value) < counts.choices,
        Name::Slot => usize::from(value) < counts.slots,
        Name::Chooser => usize::from(value) < counts.choosers,
        Name::Limit => true,
        Name::Offset => 0 < value,
        Name::Op => Op::is_op(value),
    }
}

// Whether a number's row keeps the line of its kind.
fn keeps_line(counts: Counts, takes: Takes, columns: Columns, number: u64) -> bool
    requires { columns ≡ columns_of (row_of number).kind }
    ensures { result ≡ row_keeps counts takes number }
{
    if !takes_part(takes, columns.0) {
        return false;
    }
    let left = columns.1;
    if !column_holds(counts, left, Row::left_of(number)) {
        return false;
    }
    let right = columns.2;
    if !column_holds(counts, right, Row::right_of(number)) {
        return false;
    }
    let extra = columns.3;
    column_holds(counts, extra, Row::extra_of(number))
}

// Whether a number of a pool stands for a row that keeps the table. The kinds that search and plan check take
// have arms that read the line at their own code, so that what it names is settled when the library is built.
pub fn row_keeps(counts: Counts, takes: Takes, number: u64) -> bool
    ensures { result ≡ row_keeps counts takes number }
{
    let kind = Row::kind_of(number);
    match kind {
        Kind::CHOICE_IS_IN_SLOT => keeps_line(
            counts,
            takes,
            Columns::of(Kind::CHOICE_IS_IN_SLOT),
            number,
        ),
        Kind::CHOICE_IS_NOT_IN_SLOT => keeps_line(
            counts,
            takes,
            Columns::of(Kind::CHOICE_IS_NOT_IN_SLOT),
            number,
        ),
        Kind::CHOICES_ARE_IN_SAME_SLOT => keeps_line(
            counts,
            takes,
            Columns::of(Kind::CHOICES_ARE_IN_SAME_SLOT),
            number,
        ),
        Kind::CHOICES_ARE_NOT_IN_SAME_SLOT => keeps_line(
            counts,
            takes,
            Columns::of(Kind::CHOICES_ARE_NOT_IN_SAME_SLOT),
            number,
        ),
        Kind::CHOICES_HAVE_OFFSET => keeps_line(
            counts,
            takes,
            Columns::of(Kind::CHOICES_HAVE_OFFSET),
            number,
        ),
        Kind::SLOT_HAS_LIMITED_SIZE => keeps_line(
            counts,
            takes,
            Columns::of(Kind::SLOT_HAS_LIMITED_SIZE),
            number,
        ),
        _ => keeps_line(counts, takes, Columns::of(kind), number),
    }
}

// The first row of a list that breaks the table, whatever the counts.
pub fn check_each_row(counts: Counts, takes: Takes, rows: &[u64]) -> Result<(), Refusal>
    ensures { tells result ≡ rows_judged counts takes rows.now }
{
    for i in 0..rows.len() {
        if !row_keeps(counts, takes, rows[i]) {
            return Err(Refusal::Row(i));
        }
    }
    Ok(())
}

// Whether each count is in its range: given rows are at most 128, reduced ones 1,024.
pub fn counts_in_range(counts: Counts, takes: Takes) -> bool
    ensures { result ≡ counts_in_range counts takes }
{
    if 64 < counts.choices {
        return false;
    }
    if 24 < counts.slots {
        return false;
    }
    if 200 < counts.choosers {
        return false;
    }
    counts.rows <= most_rows(takes)
}

// The most rows that a list may have.
fn most_rows(takes: Takes) -> usize
    ensures { result ≡ most_rows takes }
{
    match takes {
        Takes::Given => 128,
        Takes::Scheduling => 1024,
        Takes::Assignment => 1024,
    }
}

// The row check of a call that takes nothing but rows: 1, then 2, then 5 with the first bad row.
pub fn check_rows(counts: Counts, takes: Takes, rows: &[u64]) -> Result<(), Refusal>
    ensures { tells result ≡ check_of counts takes rows.now }
{
    if !counts_in_range(counts, takes) {
        return Err(Refusal::Count);
    }
    if rows.len() != counts.rows {
        return Err(Refusal::Length);
    }
    check_each_row(counts, takes, rows)
}
