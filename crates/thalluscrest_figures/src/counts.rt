// The counts that a call in another language leaves to its lists.
ghost use Rattle.std.specs.Prelude.{◌≡◌};
ghost use Rattle.thalluscrest_figures.specs.Counts.{roster_counts_of};

use roster_check::roster_check::RosterCounts;

// A roster's counts: each list's own length.
pub fn roster_counts(
    choices: usize,
    slots: usize,
    choosers: usize,
    levels: &[u16],
    rows: &[u64],
    assignment_rows: &[u64],
) -> RosterCounts
    ensures { let assignment_rows = assignment_rows.now in
        result ≡ roster_counts_of choices slots choosers levels.now rows.now assignment_rows }
{
    RosterCounts {
        choices,
        slots,
        choosers,
        levels: levels.len(),
        rows: rows.len(),
        assignment_rows: assignment_rows.len(),
    }
}
