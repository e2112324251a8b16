// Calls of other languages: a search, and a day planned.
ghost use Rattle.std.specs.Prelude.{◌≡◌};
ghost use Rattle.thalluscrest_figures.specs.Codes.{yes, analysis_by, settings_by};
ghost use Rattle.thalluscrest_figures.specs.Crossing.{crossed, across};
ghost use Rattle.thalluscrest_figures.specs.Layouts.{search_figures};
ghost use Rattle.search_map.specs.Map.{map_of};
ghost use Rattle.search_day.specs.Planning.{full_by, plan_day_of};
ghost use Rattle.search_meaning.specs.Calls.{search_of};
ghost use Rattle.search_meaning.specs.Given.{given_of};
ghost use Rattle.thalluscrest.specs.Counts.{search_counts_of, plan_counts_of};

use search::search::search;
use search_day::given::{PlanCounts, PlanGiven};
use search_day::plan::plan_day;
use search_day::settings::PlanSettings;
use search_map::map::Map;
use search_meaning::counts::SearchCounts;
use search_meaning::given::Given;
use thalluscrest_figures::codes::{analysis_by, is_yes, settings_by};
use thalluscrest_figures::crossing::put;

// Searches with everything lent: a map, orders and draws.
#[unsafe(no_mangle)]
pub extern "C" fn thalluscrest_search<'a>(
    choices: usize,
    slots: usize,
    choosers: usize,
    full: u8,
    analysis: u8,
    at_last_level: u8,
    pass_budget: u64,
    total_budget: u64,
    mins: &[u16],
    maxs: &[u16],
    optional: &[u8],
    levels: &[u16],
    preferences: &[u16],
    rows: &[u64],
    starts: &[u16],
    lengths: &[u16],
    count: usize,
    numbers: &'a [u16],
    whole: &'a [u16],
    orders: &[u8],
    draws: &[u32],
    plan: &mut [u8],
    figures: &mut [u64; 8],
) -> u8
    ensures { let counts =
        search_counts_of choices slots choosers levels.now rows.now count in
        let map = map_of starts.now lengths.now numbers.now in
        let given =
        given_of counts mins.now maxs.now optional.now
        levels.now preferences.now rows.now map whole.now
        orders.now draws.now in
        let settings = settings_by full analysis at_last_level pass_budget total_budget in
        let after = crossed result figures.new plan.new in
        after ≡ across search_figures (search_of given settings plan.old) }
{
    let counts = SearchCounts {
        choices,
        slots,
        choosers,
        levels: levels.len(),
        rows: rows.len(),
        numbers: count,
    };
    let settings = settings_by(full, analysis, at_last_level, pass_budget, total_budget);
    let map = Map {
        starts,
        lengths,
        numbers,
    };
    let given = Given {
        counts,
        mins,
        maxs,
        optional,
        levels,
        preferences,
        rows,
        map,
        whole,
        orders,
        draws,
    };
    let searched = search(&given, settings, plan);
    put(searched, figures)
}

// Plans a day: the full search with its own map.
#[unsafe(no_mangle)]
pub extern "C" fn thalluscrest_plan_day(
    choices: usize,
    slots: usize,
    choosers: usize,
    analysis: u8,
    at_last_level: u8,
    pass_budget: u64,
    total_budget: u64,
    mins: &[u16],
    maxs: &[u16],
    optional: &[u8],
    levels: &[u16],
    preferences: &[u16],
    rows: &[u64],
    orders: &[u8],
    draws: &[u32],
    plan: &mut [u8],
    figures: &mut [u64; 8],
) -> u8
    ensures { let counts = plan_counts_of choices slots choosers levels.now rows.now in
        let settings = full_by (analysis_by analysis) (yes at_last_level) pass_budget total_budget in
        let planned =
        plan_day_of counts mins.now maxs.now optional.now
        levels.now preferences.now rows.now orders.now
        draws.now settings plan.old in
        crossed result figures.new plan.new ≡ across search_figures planned }
{
    let counts = PlanCounts {
        choices,
        slots,
        choosers,
        levels: levels.len(),
        rows: rows.len(),
    };
    let given = PlanGiven {
        counts,
        mins,
        maxs,
        optional,
        levels,
        preferences,
        rows,
        orders,
        draws,
    };
    let settings = PlanSettings {
        analysis: analysis_by(analysis),
        at_last_level: is_yes(at_last_level),
        pass_budget,
        total_budget,
    };
    let searched = plan_day(&given, settings, plan);
    put(searched, figures)
}
