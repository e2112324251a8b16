// A day as the analysis takes it, and the tests of its counts and lengths.
ghost use Rattle.std.specs.Prelude.{◌≡◌, true};
ghost use Rattle.day_rows.specs.Levels.{levels_in_range};
ghost use Rattle.sets_analysis.specs.SetsDay.{sets_day_lent, sets_counts_in_range, sets_lengths_fit};

// A day's counts as the analysis is given them: any numbers.
#[derive(Clone, Copy)]
pub struct SetsCounts {
    pub choices: usize,
    pub slots: usize,
    pub choosers: usize,
    pub levels: usize,
}

// A day's counts, each choice's minimum, the levels, and the preferences chooser by chooser. Any numbers may
// stand in it: the analysis judges the day that it is lent.
#[derive(Clone, Copy)]
pub struct SetsDay<'a> {
    pub counts: SetsCounts,
    pub mins: &'a [u16],
    pub levels: &'a [u16],
    pub preferences: &'a [u16],
}

// Whether the number of levels is in its range: 'levels L 1..64'.
pub fn levels_in_range(levels: usize) -> bool
    ensures { result ≡ levels_in_range levels }
{
    if levels < 1 {
        return false;
    }
    levels <= 64
}

// Whether each count of a day is in its range.
pub(crate) fn counts_keep(counts: SetsCounts) -> bool
    ensures { result ≡ sets_counts_in_range counts }
{
    if 64 < counts.choices {
        return false;
    }
    if 24 < counts.slots {
        return false;
    }
    if 200 < counts.choosers {
        return false;
    }
    levels_in_range(counts.levels)
}

// Whether a day's slices have their lengths: 'every other slice .. at the length its counts give'.
pub(crate) fn lengths_keep(day: &SetsDay) -> bool
    requires { sets_counts_in_range day.now.counts ≡ true }
    ensures { result ≡ sets_lengths_fit (sets_day_lent day.now) }
{
    if day.mins.len() != day.counts.choices {
        return false;
    }
    if day.levels.len() != day.counts.levels {
        return false;
    }
    day.preferences.len() == day.counts.choosers * day.counts.choices
}
