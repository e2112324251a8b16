// What a day's plan is asked by.
ghost use Rattle.std.specs.Prelude.{◌≡◌};
ghost use Rattle.search_map.specs.Map.{map_lent};
ghost use Rattle.search_meaning.specs.Given.{given_lent};
ghost use Rattle.search_day.specs.Planning.{with_numbers, given_mapped};

use search_map::map::Map;
use search_meaning::counts::SearchCounts;
use search_meaning::given::Given;

// A day's counts as the call is given them: any numbers.
#[derive(Clone, Copy)]
pub struct PlanCounts {
    pub choices: usize,
    pub slots: usize,
    pub choosers: usize,
    pub levels: usize,
    pub rows: usize,
}

// What a search is given but its map, which is made of the rows. Any numbers may stand in it: the call judges
// what it is lent.
#[derive(Clone, Copy)]
pub struct PlanGiven<'a> {
    pub counts: PlanCounts,
    pub mins: &'a [u16],
    pub maxs: &'a [u16],
    pub optional: &'a [u8],
    pub levels: &'a [u16],
    pub preferences: &'a [u16],
    pub rows: &'a [u64],
    pub orders: &'a [u8],
    pub draws: &'a [u32],
}

// The search's counts, with how many numbers the map has.
pub(crate) fn with_numbers(counts: PlanCounts, numbers: usize) -> SearchCounts
    ensures { result ≡ with_numbers numbers counts }
{
    SearchCounts {
        choices: counts.choices,
        slots: counts.slots,
        choosers: counts.choosers,
        levels: counts.levels,
        rows: counts.rows,
        numbers,
    }
}

// What the search is given, with a map of so many numbers and the whole list of the rows' numbers. By value:
// behind a reference what is lent can't stand beside a map that lives for less long.
pub(crate) fn given_by<'a>(
    given: PlanGiven<'a>,
    numbers: usize,
    map: Map<'a, 'a>,
    whole: &'a [u16],
) -> Given<'a>
    ensures { given_lent result ≡ given_mapped given.entry numbers (map_lent map.entry) whole.now }
{
    Given {
        counts: with_numbers(given.counts, numbers),
        mins: given.mins,
        maxs: given.maxs,
        optional: given.optional,
        levels: given.levels,
        preferences: given.preferences,
        rows: given.rows,
        map,
        whole,
        orders: given.orders,
        draws: given.draws,
    }
}
