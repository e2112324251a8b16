// Which sets are kept: 'Levels downwards, choosers upwards'.
// There is no heap: the pools that are filled stand at their full length, the count of their sets beside them.
ghost use Rattle.std.specs.Prelude.{◌≡◌, ◌*◌, ◌-◌, ◌≤◌, ◌<◌, length, get_or, MatchOption};
ghost use Rattle.base_lists.specs.Flat.{list_below};
ghost use Rattle.base_lists.specs.Keep.{any_of};
ghost use Rattle.sets_analysis.specs.SetsDay.{sets_day_lent};
ghost use Rattle.sets_analysis.specs.Kept.{critical_set, covered_by, candidate_of, kept_from, kept_sets};
ghost use Rattle.sets_analysis.specs.Calls.{sets_in, sets_of};
ghost use Rattle.sets_analysis.specs.steps.Pools.{Lent, Front, Fits, KeptIn, kept_next};

use super::candidate::{Candidate, candidate_of};
use super::day::{SetsCounts, SetsDay};
use super::level_tests::{all_but_one, is_not_higher};
use super::limits::MOST_SETS;
use base_choice_sets::set::is_within;

// Whether a set is covered by another: 'covered: level not higher, and a superset'.
pub(crate) fn is_covered_by(level: u16, members: u64, other_level: u16, other: u64) -> bool
    ensures { result ≡ covered_by (critical_set other_level other) (critical_set level members) }
{
    if !is_not_higher(level, other_level) {
        return false;
    }
    is_within(other, members)
}

// Whether one of the kept sets covers a set.
fn is_covered(level: u16, members: u64, masks: &[u64], levels: &[u16]) -> bool
    requires { Front masks.now levels.now }
    ensures { let kept = sets_of masks.now levels.now in
        result ≡ any_of (λ other. covered_by other (critical_set level members)) kept }
{
    for i in 0..masks.len() {
        if is_covered_by(level, members, levels[i], masks[i]) {
            return true;
        }
    }
    false
}

// A candidate is skipped, kept after the others, or one too many: the answer is how many sets there are then,
// none where there are too many.
fn keep(
    room: usize,
    level: u16,
    found: Candidate,
    masks: &mut [u64],
    levels: &mut [u16],
    count: usize,
) -> Option<usize>
    requires { Lent count masks.old levels.old }
    ensures { let before = sets_in count masks.old levels.old in
        let after = kept_next room found.min_sum (critical_set level found.members) before in
        MatchOption result (1024 < length after)
        (λ kept. (kept ≤ 1024) × KeptIn after kept masks.new levels.new) }
{
    if room < found.min_sum as usize {
        return Some(count);
    }
    let members = found.members;
    if is_covered(level, members, &masks[..count], &levels[..count]) {
        return Some(count);
    }
    if count == MOST_SETS {
        return None;
    }
    masks[count] = members;
    levels[count] = level;
    Some(count + 1)
}

// The most that a kept set's sum of min may be: 'H*(S-1), 0 for S = 0'.
fn room_of(counts: SetsCounts) -> usize
    requires { (counts.choosers ≤ 200) × (counts.slots ≤ 24) }
    ensures { result ≡ counts.choosers * (counts.slots - 1) }
{
    counts.choosers * all_but_one(counts.slots)
}

// 'choosers upwards': the sets of one level, kept after the others. The answer is how many sets there are
// then, none where there are too many.
fn keep_level(
    day: &SetsDay,
    index: usize,
    masks: &mut [u64],
    set_levels: &mut [u16],
    count: usize,
) -> Option<usize>
    requires { let day = sets_day_lent day.now in
        Lent count masks.old set_levels.old × Fits day × (index < length day.levels) }
    ensures { let day = sets_day_lent day.now in
        let before = sets_in count masks.old set_levels.old in
        let level = get_or day.levels index 0 in
        let after = kept_from day before (list_below day.counts.choosers (candidate_of day level)) in
        MatchOption result (1024 < length after)
        (λ kept. (kept ≤ 1024) × KeptIn after kept masks.new set_levels.new) }
{
    let level = day.levels[index];
    let room = room_of(day.counts);
    let mut kept = count;
    for chooser in 0..day.counts.choosers {
        let start = chooser * day.counts.choices;
        let found = candidate_of(level, day.mins, day.preferences, start);
        kept = keep(room, level, found, masks, set_levels, kept)?;
    }
    Some(kept)
}

// 'Levels downwards': every set of a day that is kept. The answer is how many they are, none where there are
// too many.
pub(crate) fn kept_sets(day: &SetsDay, masks: &mut [u64], set_levels: &mut [u16]) -> Option<usize>
    requires { Lent 0 masks.old set_levels.old × Fits (sets_day_lent day.now) }
    ensures { let day = sets_day_lent day.now in
        MatchOption result (1024 < length (kept_sets day))
        (λ kept. (kept ≤ 1024) × KeptIn (kept_sets day) kept masks.new set_levels.new) }
{
    let mut kept = 0;
    for index in (0..day.levels.len()).rev() {
        kept = keep_level(day, index, masks, set_levels, kept)?;
    }
    Some(kept)
}
