// A day's counts for a search.
ghost use Rattle.std.specs.Prelude.{◌≡◌};
ghost use Rattle.search_meaning.specs.Given.{row_counts, sets_counts};

use day_rows::check::Counts;
use sets_analysis::day::SetsCounts;

// A day's counts as a search is given them, the map's numbers among them: any numbers.
#[derive(Clone, Copy)]
pub struct SearchCounts {
    pub choices: usize,
    pub slots: usize,
    pub choosers: usize,
    pub levels: usize,
    pub rows: usize,
    pub numbers: usize,
}

// A search's counts as a check of rows takes them: C, S, H and the number of rows. A name says what is left out,
// which From couldn't.
pub fn row_counts(counts: SearchCounts) -> Counts
    ensures { result ≡ row_counts counts }
{
    Counts {
        choices: counts.choices,
        slots: counts.slots,
        choosers: counts.choosers,
        rows: counts.rows,
    }
}

// A search's counts as the analysis takes them: C, S, H and L.
pub fn day_counts(counts: SearchCounts) -> SetsCounts
    ensures { result ≡ sets_counts counts }
{
    SetsCounts {
        choices: counts.choices,
        slots: counts.slots,
        choosers: counts.choosers,
        levels: counts.levels,
    }
}
