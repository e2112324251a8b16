// The search's refusals, lowest number first.
ghost use Rattle.std.specs.Prelude.{◌≡◌, true};
ghost use Rattle.day_rows.specs.Told.{tells};
ghost use Rattle.search_meaning.specs.Given.{given_lent};
ghost use Rattle.search_meaning.specs.Judged.{search_in_range, day_judged, lent_judged};
ghost use Rattle.search_meaning.specs.steps.Lengths.{day_lengths, row_lengths};

use super::counts::{SearchCounts, row_counts};
use super::given::Given;
use day_rows::check::{Takes, check_each_row, counts_in_range};
use day_rows::lists::{flags_fit, last_level, levels_rise, preferences_keep};
use day_rows::refusal::Refusal;
use search_map::map::{MOST_NUMBERS, MapCounts, is_full, judge_map};
use search_order::orders_keep;
use sets_analysis::day::levels_in_range;

// 1: whether each count is in its range.
fn in_range(counts: SearchCounts) -> bool
    ensures { result ≡ search_in_range counts }
{
    if !counts_in_range(row_counts(counts), Takes::Scheduling) {
        return false;
    }
    if !levels_in_range(counts.levels) {
        return false;
    }
    counts.numbers <= MOST_NUMBERS
}

// 2: whether what has an entry for each choice, level or preference is as long as its count.
fn day_lengths(given: &Given, plan: &[u8]) -> bool
    requires { search_in_range given.now.counts ≡ true }
    ensures { result ≡ day_lengths (given_lent given.now) plan.now }
{
    let counts = given.counts;
    if given.mins.len() != counts.choices {
        return false;
    }
    if given.maxs.len() != counts.choices {
        return false;
    }
    if given.optional.len() != counts.choices {
        return false;
    }
    if plan.len() != counts.choices {
        return false;
    }
    if given.levels.len() != counts.levels {
        return false;
    }
    given.preferences.len() == counts.choosers * counts.choices
}

// 2: whether the rows, the map's pools and the whole list are as long as they have to be.
fn row_lengths(given: &Given) -> bool
    ensures { result ≡ row_lengths (given_lent given.now) }
{
    if given.rows.len() != given.counts.rows {
        return false;
    }
    if !is_full(&given.map) {
        return false;
    }
    given.whole.len() == given.counts.rows
}

// The refusals of the day: 1, 2, 3, 4, 5 with the first bad row.
pub fn judge_day(given: &Given, plan: &[u8]) -> Result<(), Refusal>
    ensures { tells result ≡ day_judged (given_lent given.now) plan.now }
{
    let fits = in_range(given.counts);
    let is_refused = !fits;
    if is_refused {
        return Err(Refusal::Count);
    }
    if !day_lengths(given, plan) {
        return Err(Refusal::Length);
    }
    if !row_lengths(given) {
        return Err(Refusal::Length);
    }
    if !levels_rise(given.levels) {
        return Err(Refusal::Levels);
    }
    if !preferences_keep(last_level(given.levels), given.preferences) {
        return Err(Refusal::Preference);
    }
    check_each_row(row_counts(given.counts), Takes::Scheduling, given.rows)
}

// The refusals of what is lent beside the day: 8, 13, 14.
pub fn judge_lent(given: &Given) -> Result<(), Refusal>
    ensures { tells result ≡ lent_judged (given_lent given.now) }
{
    let counts = MapCounts {
        choices: given.counts.choices,
        rows: given.counts.rows,
        numbers: given.counts.numbers,
    };
    if !orders_keep(counts.choices, given.orders) {
        return Err(Refusal::Orders);
    }
    if !flags_fit(given.optional) {
        return Err(Refusal::Optional);
    }
    if !judge_map(counts, &given.map, given.whole) {
        return Err(Refusal::Map);
    }
    Ok(())
}
