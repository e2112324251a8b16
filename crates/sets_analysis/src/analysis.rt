// The analysis as a public call: its refusals, lowest number first, the sets and their bound.
ghost use Rattle.std.specs.Prelude.{◌≡◌, ◌≤◌, length};
ghost use Rattle.day_rows.specs.Told.{tells, outcome};
ghost use Rattle.sets_analysis.specs.SetsDay.{sets_day_lent};
ghost use Rattle.sets_analysis.specs.Kept.{kept_sets};
ghost use Rattle.sets_analysis.specs.Calls.{pools, sets_in, sets_of, sets_kept, day_judged, analysis_of};
ghost use Rattle.sets_analysis.specs.steps.Pools.{Lent, Front, Fits, cleared_past, simplified_if};

use super::bound::bound_of;
use super::day::{SetsDay, counts_keep, lengths_keep};
use super::kept::kept_sets;
use super::limits::MOST_SETS;
use super::simplified::simplify;
use day_rows::lists::{last_level, levels_rise, preferences_keep};
use day_rows::refusal::Refusal;

// 'analysis off, on, or simplified'.
#[derive(Clone, Copy)]
pub enum Analysis {
    Off,
    On,
    Simplified,
}

// What the analysis hands back: how many sets there are, and the bound.
#[derive(Clone, Copy)]
pub struct Figures {
    pub count: usize,
    pub bound: u16,
}

// The refusals of a day that leave the pools untouched, lowest number first: 1, 2, 3, 4.
fn judge(day: &SetsDay, masks: &[u64], set_levels: &[u16]) -> Result<(), Refusal>
    ensures { let lent = pools masks.now set_levels.now in
        tells result ≡ day_judged (sets_day_lent day.now) lent }
{
    if !counts_keep(day.counts) {
        return Err(Refusal::Count);
    }
    if !lengths_keep(day) {
        return Err(Refusal::Length);
    }
    if masks.len() != MOST_SETS {
        return Err(Refusal::Length);
    }
    if set_levels.len() != MOST_SETS {
        return Err(Refusal::Length);
    }
    if !levels_rise(day.levels) {
        return Err(Refusal::Levels);
    }
    if !preferences_keep(last_level(day.levels), day.preferences) {
        return Err(Refusal::Preference);
    }
    Ok(())
}

// Zeroes both pools past their first sets.
// The count stands beside the pools: the promise speaks of the sets before it too.
fn clear_past(masks: &mut [u64], levels: &mut [u16], count: usize)
    requires { Lent count masks.old levels.old }
    ensures { (masks.new ≡ cleared_past count masks.old)
        × (levels.new ≡ cleared_past count levels.old) }
{
    masks[count..].fill(0);
    levels[count..].fill(0);
}

// 'Simplifying, if asked', of the sets at the front of the pools. The answer is how many are left.
fn simplified_if(asked: bool, masks: &mut [u64], levels: &mut [u16]) -> usize
    requires { Front masks.old levels.old }
    ensures { let before = sets_of masks.old levels.old in
        let after = sets_in result masks.new levels.new in
        (result ≤ length masks.old) × (after ≡ simplified_if asked before) }
{
    if asked {
        return simplify(masks, levels);
    }
    masks.len()
}

// The analysis on or simplified, of a day that isn't refused.
fn analyze_day(
    day: &SetsDay,
    simplifies: bool,
    masks: &mut [u64],
    set_levels: &mut [u16],
) -> Result<Figures, Refusal>
    requires { Lent 0 masks.old set_levels.old × Fits (sets_day_lent day.now) }
    ensures { let day = sets_day_lent day.now in
        let kept = kept_sets day in
        let sets = simplified_if simplifies kept in
        let after = pools masks.new set_levels.new in
        outcome (tells result) after ≡ sets_kept day kept sets }
{
    let Some(kept) = kept_sets(day, masks, set_levels) else {
        clear_past(masks, set_levels, 0);
        return Err(Refusal::Sets);
    };
    let count = simplified_if(simplifies, &mut masks[..kept], &mut set_levels[..kept]);
    let bound = bound_of(
        day.counts.slots,
        day.levels,
        &masks[..count],
        &set_levels[..count],
    );
    clear_past(masks, set_levels, count);
    Ok(Figures { count, bound })
}

// The analysis: the sets of a day, written into the pools, and their bound; or why the day is refused.
pub fn analyze(
    day: &SetsDay,
    analysis: Analysis,
    masks: &mut [u64],
    set_levels: &mut [u16],
) -> Result<Figures, Refusal>
    ensures { let day = sets_day_lent day.now in
        let lent = pools masks.old set_levels.old in
        let after = pools masks.new set_levels.new in
        outcome (tells result) after ≡ analysis_of day analysis lent }
{
    judge(day, masks, set_levels)?;
    match analysis {
        Analysis::Off => {
            clear_past(masks, set_levels, 0);
            Ok(Figures { count: 0, bound: 0 })
        }
        Analysis::On => analyze_day(day, false, masks, set_levels),
        Analysis::Simplified => analyze_day(day, true, masks, set_levels),
    }
}
