// Calls of other languages: critical sets, a level's list, and an own map.
ghost use Rattle.std.specs.Prelude.{◌≡◌};
ghost use Rattle.thalluscrest_figures.specs.Codes.{analysis_by};
ghost use Rattle.thalluscrest_figures.specs.Crossing.{crossed, across};
ghost use Rattle.thalluscrest_figures.specs.Layouts.{one_figure, sets_figures};
ghost use Rattle.search_map.specs.Calls.{own_map_of};
ghost use Rattle.search_map.specs.Map.{map_of};
ghost use Rattle.sets_analysis.specs.Calls.{pools, analysis_of};
ghost use Rattle.sets_analysis.specs.SetsDay.{day_of};
ghost use Rattle.sets_levels.specs.Calls.{level_list_of};
ghost use Rattle.thalluscrest.specs.Counts.{counts_of, sets_counts_of};

use day_rows::check::Counts;
use search_map::own_map::own_map;
use sets_analysis::analysis::analyze;
use sets_analysis::day::{SetsCounts, SetsDay};
use sets_levels::level_list::level_list;
use thalluscrest_figures::codes::analysis_by;
use thalluscrest_figures::crossing::put;

// Analyses a day: its critical sets into pools lent at their full limits, and the bound.
#[unsafe(no_mangle)]
pub extern "C" fn thalluscrest_analyze(
    choices: usize,
    slots: usize,
    choosers: usize,
    analysis: u8,
    mins: &[u16],
    levels: &[u16],
    preferences: &[u16],
    masks: &mut [u64],
    set_levels: &mut [u16],
    figures: &mut [u64; 8],
) -> u8
    ensures { let counts = sets_counts_of choices slots choosers levels.now in
        let day = day_of counts mins.now levels.now preferences.now in
        let before = pools masks.old set_levels.old in
        let after = pools masks.new set_levels.new in
        let analyzed = analysis_of day (analysis_by analysis) before in
        crossed result figures.new after ≡ across sets_figures analyzed }
{
    let counts = SetsCounts {
        choices,
        slots,
        choosers,
        levels: levels.len(),
    };
    let day = SetsDay {
        counts,
        mins,
        levels,
        preferences,
    };
    let analyzed = analyze(&day, analysis_by(analysis), masks, set_levels);
    put(analyzed, figures)
}

// Makes a level's list of the first sets of the pools, into a pool lent at its full limit.
#[unsafe(no_mangle)]
pub extern "C" fn thalluscrest_level_list(
    levels: &[u16],
    limit: u16,
    masks: &[u64],
    set_levels: &[u16],
    count: usize,
    list: &mut [u64],
    figures: &mut [u64; 8],
) -> u8
    ensures { let sets = pools masks.now set_levels.now in
        let listed = level_list_of levels.now count sets limit list.old in
        crossed result figures.new list.new ≡ across one_figure listed }
{
    let listed = level_list(levels, limit, masks, set_levels, count, list);
    put(listed, figures)
}

// Makes the own map of rows, into pools lent at their full limits.
#[unsafe(no_mangle)]
pub extern "C" fn thalluscrest_own_map(
    choices: usize,
    slots: usize,
    choosers: usize,
    rows: &[u64],
    starts: &mut [u16],
    lengths: &mut [u16],
    numbers: &mut [u16],
    figures: &mut [u64; 8],
) -> u8
    ensures { let counts = counts_of choices slots choosers rows.now in
        let before = map_of starts.old lengths.old numbers.old in
        let after = map_of starts.new lengths.new numbers.new in
        let mapped = own_map_of counts rows.now before in
        crossed result figures.new after ≡ across one_figure mapped }
{
    let counts = Counts {
        choices,
        slots,
        choosers,
        rows: rows.len(),
    };
    let mapped = own_map(counts, rows, starts, lengths, numbers);
    put(mapped, figures)
}
