// The roster check as a public call.
ghost use Rattle.std.specs.Prelude.{◌≡◌, true, ◌≤◌, length};
ghost use Rattle.day_rows.specs.Told.{tells};
ghost use Rattle.roster_check.specs.Sheet.{sheet_lent, row_counts};
ghost use Rattle.roster_check.specs.Passes.{passes};
ghost use Rattle.roster_check.specs.Check.{roster_counts_in_range, roster_lengths_fit, lists_judged, rows_judged, roster_check_of};
ghost use Rattle.roster_check.specs.steps.Shapes.{Judged};

use super::highest::highest_met;
use super::judge::{judge_list, preferences_keep};
use super::seats::{all_apart, seats_fit};
use day_rows::check::Takes;
use day_rows::lists::{last_level, levels_rise};
use day_rows::refusal::Refusal;
use plan_check::kept::keeps_every_row;
use roster_rows::assignment::keeps_assignment_rows;
use roster_rows::judge::judge_cells;
use roster_rows::roster::Roster;

// A roster check's counts as a call is given them: any numbers.
#[derive(Clone, Copy)]
pub struct RosterCounts {
    pub choices: usize,
    pub slots: usize,
    pub choosers: usize,
    pub levels: usize,
    pub rows: usize,
    pub assignment_rows: usize,
}

// What the roster check is lent: the counts; each choice's minimum and maximum; the levels; the preferences
// chooser by chooser; the search's rows and the roster's; the plan; the cells chooser by chooser. Any numbers
// may stand in it: the check judges the sheet that it is lent.
#[derive(Clone, Copy)]
pub struct Sheet<'a> {
    pub counts: RosterCounts,
    pub mins: &'a [u16],
    pub maxs: &'a [u16],
    pub levels: &'a [u16],
    pub preferences: &'a [u16],
    pub rows: &'a [u64],
    pub assignment_rows: &'a [u64],
    pub plan: &'a [u8],
    pub roster: &'a [u8],
}

// What the roster check hands back: whether the roster passes, and, passed or not, the highest preference met.
#[derive(Clone, Copy)]
pub struct Scored {
    pub passed: bool,
    pub highest: u16,
}

// Whether every slice is as long as its counts say.
fn lengths_keep(sheet: &Sheet) -> bool
    requires { roster_counts_in_range sheet.now.counts ≡ true }
    ensures { result ≡ roster_lengths_fit (sheet_lent sheet.now) }
{
    let counts = sheet.counts;
    if sheet.mins.len() != counts.choices {
        return false;
    }
    if sheet.maxs.len() != counts.choices {
        return false;
    }
    if sheet.levels.len() != counts.levels {
        return false;
    }
    if sheet.preferences.len() != counts.choosers * counts.choices {
        return false;
    }
    if sheet.rows.len() != counts.rows {
        return false;
    }
    if sheet.assignment_rows.len() != counts.assignment_rows {
        return false;
    }
    if sheet.plan.len() != counts.choices {
        return false;
    }
    sheet.roster.len() == counts.choosers * counts.slots
}

// The refusals of counts, lengths, levels and preferences: 1, 2, 3 and 4.
fn judge_lists(sheet: &Sheet) -> Result<(), Refusal>
    ensures { tells result ≡ lists_judged (sheet_lent sheet.now) }
{
    if !sheet.counts.in_range() {
        return Err(Refusal::Count);
    }
    if !lengths_keep(sheet) {
        return Err(Refusal::Length);
    }
    if !levels_rise(sheet.levels) {
        return Err(Refusal::Levels);
    }
    if !preferences_keep(last_level(sheet.levels), sheet.preferences) {
        return Err(Refusal::Preference);
    }
    Ok(())
}

// The refusals of rows, 5: the first bad row of the search's list, then of the roster's.
fn judge_rows(sheet: &Sheet) -> Result<(), Refusal>
    requires { let sheet = sheet_lent sheet.now in
        (length sheet.rows ≤ 1024) × (length sheet.assignment_rows ≤ 1024) }
    ensures { let sheet = sheet_lent sheet.now in
        tells result ≡ rows_judged (row_counts sheet.counts) sheet.rows sheet.assignment_rows }
{
    let counts = sheet.counts.of_rows();
    judge_list(counts, Takes::Scheduling, 0, sheet.rows)?;
    judge_list(
        counts,
        Takes::Assignment,
        sheet.rows.len(),
        sheet.assignment_rows,
    )
}

// Whether the roster passes, on what is judged: slots, seats and the rows of both lists decide.
fn passes_all(sheet: &Sheet) -> bool
    requires { Judged (sheet_lent sheet.now) }
    ensures { result ≡ passes (sheet_lent sheet.now) }
{
    if !all_apart(sheet) {
        return false;
    }
    if !seats_fit(sheet) {
        return false;
    }
    if !keeps_every_row(sheet.plan, sheet.rows) {
        return false;
    }
    let roster = Roster {
        choices: sheet.counts.choices,
        slots: sheet.counts.slots,
        choosers: sheet.counts.choosers,
        plan: sheet.plan,
        cells: sheet.roster,
    };
    keeps_assignment_rows(&roster, sheet.assignment_rows)
}

// The roster check: refused, or passed or not with the highest preference met.
pub fn check_roster(sheet: &Sheet) -> Result<Scored, Refusal>
    ensures { tells result ≡ roster_check_of (sheet_lent sheet.now) }
{
    judge_lists(sheet)?;
    judge_rows(sheet)?;
    judge_cells(sheet.counts.slots, sheet.plan, sheet.roster)?;
    let highest = highest_met(sheet);
    let passed = passes_all(sheet);
    Ok(Scored { passed, highest })
}
