// What a search is given.
ghost use Rattle.std.specs.Prelude.{◌≡◌};
ghost use Rattle.plan_check.specs.Day.{day_lent};
ghost use Rattle.sets_analysis.specs.SetsDay.{sets_day_lent};
ghost use Rattle.search_meaning.specs.Given.{given_lent, plan_day, sets_day};

use super::counts::{SearchCounts, day_counts, row_counts};
use plan_check::day::Day;
use search_map::map::Map;
use sets_analysis::day::SetsDay;

// What a search is given: the day's counts and lists, its rows with a map and the whole list of their numbers,
// orders and draws. Any numbers may stand in it: each call judges what it is lent.
#[derive(Clone, Copy)]
pub struct Given<'a> {
    pub counts: SearchCounts,
    pub mins: &'a [u16],
    pub maxs: &'a [u16],
    pub optional: &'a [u8],
    pub levels: &'a [u16],
    pub preferences: &'a [u16],
    pub rows: &'a [u64],
    pub map: Map<'a, 'a>,
    pub whole: &'a [u16],
    pub orders: &'a [u8],
    pub draws: &'a [u32],
}

// The day as the plan check takes it.
pub fn plan_day<'a>(given: &Given<'a>) -> Day<'a>
    ensures { day_lent result ≡ plan_day (given_lent given.now) }
{
    Day {
        counts: row_counts(given.counts),
        mins: given.mins,
        maxs: given.maxs,
        optional: given.optional,
        rows: given.rows,
    }
}

// The day as the analysis takes it.
pub fn sets_day<'a>(given: &Given<'a>) -> SetsDay<'a>
    ensures { sets_day_lent result ≡ sets_day (given_lent given.now) }
{
    SetsDay {
        counts: day_counts(given.counts),
        mins: given.mins,
        levels: given.levels,
        preferences: given.preferences,
    }
}
