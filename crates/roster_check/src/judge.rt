// The tests behind the roster check's refusals: of counts, of preferences and of a list of rows.
ghost use Rattle.std.specs.Prelude.{◌≡◌, ◌+◌, ◌<◌, ◌^◌, length, get_or};
ghost use Rattle.base_lists.specs.All.{all_at_most};
ghost use Rattle.day_rows.specs.Told.{tells};
ghost use Rattle.roster_check.specs.Sheet.{row_counts};
ghost use Rattle.roster_check.specs.Roster.{highest_below};
ghost use Rattle.roster_check.specs.Check.{roster_counts_in_range, list_judged};

use super::roster_check::RosterCounts;
use day_rows::check::{Counts, Takes, counts_in_range, row_keeps};
use day_rows::refusal::Refusal;

impl RosterCounts {
    // The counts that the row check takes: those of the search's list. A name says of which list they are, which
    // From couldn't.
    pub(crate) fn of_rows(self) -> Counts
        ensures { result ≡ row_counts self }
    {
        Counts {
            choices: self.choices,
            slots: self.slots,
            choosers: self.choosers,
            rows: self.rows,
        }
    }

    // Whether each count is in its range; a day has at least one level.
    pub(crate) fn in_range(self) -> bool
        ensures { result ≡ roster_counts_in_range self }
    {
        if !counts_in_range(self.of_rows(), Takes::Scheduling) {
            return false;
        }
        if self.levels < 1 {
            return false;
        }
        if 64 < self.levels {
            return false;
        }
        self.assignment_rows <= 1024
    }
}

// The highest of all preferences given, in a loop with one way through: compiled to several entries a step.
fn highest_given(preferences: &[u16]) -> u16
    ensures { result ≡ highest_below (length preferences.now) (λ i. get_or preferences.now i 0) }
{
    let mut highest = 0;
    for preference in preferences {
        highest = highest.max(*preference);
    }
    highest
}

// Whether every preference is at most the last level, told by the highest of them.
pub(crate) fn preferences_keep(last: u16, preferences: &[u16]) -> bool
    ensures { result ≡ all_at_most last preferences.now }
{
    highest_given(preferences) <= last
}

// The first row of a list that breaks the table, counted from the rows before the list on.
pub(crate) fn judge_list(
    counts: Counts,
    takes: Takes,
    before: usize,
    rows: &[u64],
) -> Result<(), Refusal>
    requires { before + length rows.now < 2 ^ 63 }
    ensures { tells result ≡ list_judged counts takes before rows.now }
{
    for (i, row) in rows.iter().enumerate() {
        if !row_keeps(counts, takes, *row) {
            return Err(Refusal::Row(before + i));
        }
    }
    Ok(())
}
