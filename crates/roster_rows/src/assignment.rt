// Whether a roster keeps the rows of kinds 10 to 13, each by module 6's sentence.
ghost use Rattle.std.specs.Prelude.{◌≡◌, ◌||◌};
ghost use Rattle.day_rows.specs.Row.{row_of};
ghost use Rattle.plan_check.specs.Plan.{omitted};
ghost use Rattle.roster_rows.specs.Rows.{equal_lists, choosers_in, choices_of, is_there, keeps_assignment_row, keeps_assignment_rows, roster_keeps};
ghost use Rattle.roster_rows.specs.Roster.{roster_lent};
ghost use Rattle.roster_rows.specs.steps.Shapes.{Shaped};

use super::cells::{cells_of, is_there, tally, times_in};
use super::roster::Roster;
use day_rows::kind::Kind;
use day_rows::row::Row;
use plan_check::plan::{OMITTED, slot_of};

// Whether a plan omits a choice.
fn is_omitted(plan: &[u8], choice: u16) -> bool
    ensures { result ≡ omitted plan.now choice }
{
    slot_of(plan, choice) == OMITTED
}

// Whether two choices have 'equal lists of choosers, repeats counted': every chooser's cells name the two
// choices equally often.
fn same_choosers(roster: &Roster, left: u16, right: u16) -> bool
    requires { Shaped (roster_lent roster.now) }
    ensures { let roster = roster_lent roster.now in
        result ≡ equal_lists (choosers_in roster left) (choosers_in roster right) }
{
    for chooser in 0..roster.choosers {
        let cells = cells_of(roster, chooser);
        if times_in(left, cells) != times_in(right, cells) {
            return false;
        }
    }
    true
}

// Kind 10: whether two choices have equal lists of choosers, or one of them is omitted.
fn keeps_same_choosers(roster: &Roster, left: u16, right: u16) -> bool
    requires { Shaped (roster_lent roster.now) }
    ensures { let roster = roster_lent roster.now in
        result ≡ (omitted roster.plan left || omitted roster.plan right
        || equal_lists (choosers_in roster left) (choosers_in roster right)) }
{
    if is_omitted(roster.plan, left) {
        return true;
    }
    if is_omitted(roster.plan, right) {
        return true;
    }
    same_choosers(roster, left, right)
}

// Whether a cell of a chooser names a choice.
fn seated(roster: &Roster, chooser: u16, choice: u16) -> bool
    requires { Shaped (roster_lent roster.now) }
    ensures { result ≡ is_there (roster_lent roster.now) chooser choice }
{
    is_there(choice, cells_of(roster, chooser as usize))
}

// Kind 11: whether the choice is 'omitted, or chooser there'.
fn keeps_chooser_in(roster: &Roster, chooser: u16, choice: u16) -> bool
    requires { Shaped (roster_lent roster.now) }
    ensures { let roster = roster_lent roster.now in
        result ≡ (omitted roster.plan choice || is_there roster chooser choice) }
{
    if is_omitted(roster.plan, choice) {
        return true;
    }
    seated(roster, chooser, choice)
}

// Kind 13: whether two choosers have 'equal sorted lists of choices': each choice stands equally often in the
// cells of both.
fn same_choices(roster: &Roster, left: u16, right: u16) -> bool
    requires { Shaped (roster_lent roster.now) }
    ensures { let roster = roster_lent roster.now in
        result ≡ equal_lists (choices_of roster left) (choices_of roster right) }
{
    let ours = tally(cells_of(roster, left as usize));
    let theirs = tally(cells_of(roster, right as usize));
    for choice in 0..roster.choices {
        if ours[choice] != theirs[choice] {
            return false;
        }
    }
    true
}

// Whether a roster keeps the row that a number stands for.
fn keeps_assignment_row(roster: &Roster, number: u64) -> bool
    requires { Shaped (roster_lent roster.now) }
    ensures { result ≡ keeps_assignment_row (roster_lent roster.now) (row_of number) }
{
    let left = Row::left_of(number);
    let right = Row::right_of(number);
    match Row::kind_of(number) {
        Kind::CHOICES_HAVE_SAME_CHOOSERS => keeps_same_choosers(roster, left, right),
        Kind::CHOOSER_IS_IN_CHOICE => keeps_chooser_in(roster, left, right),
        Kind::CHOOSER_IS_NOT_IN_CHOICE => !seated(roster, left, right),
        Kind::CHOOSERS_HAVE_SAME_CHOICES => same_choices(roster, left, right),
        _ => false,
    }
}

// Whether a roster keeps every row of a list, on what has a roster's shape.
fn keeps_each_row(roster: &Roster, rows: &[u64]) -> bool
    requires { Shaped (roster_lent roster.now) }
    ensures { result ≡ keeps_assignment_rows (roster_lent roster.now) rows.now }
{
    for row in rows {
        if !keeps_assignment_row(roster, *row) {
            return false;
        }
    }
    true
}

// Whether a roster keeps every row of a list, kinds 10 to 13; what has no roster's shape keeps nothing.
pub fn keeps_assignment_rows(roster: &Roster, rows: &[u64]) -> bool
    ensures { result ≡ roster_keeps (roster_lent roster.now) rows.now }
{
    if 64 < roster.choices {
        return false;
    }
    if 24 < roster.slots {
        return false;
    }
    if 200 < roster.choosers {
        return false;
    }
    if roster.cells.len() != roster.choosers * roster.slots {
        return false;
    }
    keeps_each_row(roster, rows)
}
