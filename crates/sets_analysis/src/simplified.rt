// Simplifying: 'at each index drop the other sets covered by the one there, then index plus 1'.
ghost use Rattle.std.specs.Prelude.{◌≡◌, ◌≤◌, ◌<◌, length};
ghost use Rattle.sets_analysis.specs.Kept.{critical_set, stays_beside, dropped_at, simplified};
ghost use Rattle.sets_analysis.specs.Calls.{sets_in, sets_of};
ghost use Rattle.sets_analysis.specs.steps.Pools.{Front};

use super::kept::is_covered_by;
use base_choice_sets::set::is_same;

// Whether a set stays beside the one at the index: it is that one, or isn't covered by it.
fn stays_beside(here_level: u16, here: u64, level: u16, members: u64) -> bool
    ensures { result ≡ stays_beside (critical_set here_level here) (critical_set level members) }
{
    if !is_covered_by(level, members, here_level, here) {
        return true;
    }
    if here_level != level {
        return false;
    }
    is_same(here, members)
}

// Drops the other sets covered by the one at the index; those that stay move up. The answer is how many stay.
fn drop_at(index: usize, masks: &mut [u64], levels: &mut [u16]) -> usize
    requires { Front masks.old levels.old × (index < length masks.old) }
    ensures { let before = sets_of masks.old levels.old in
        let after = sets_in result masks.new levels.new in
        (result ≤ length masks.old) × (after ≡ dropped_at index before) }
{
    let here_level = levels[index];
    let here = masks[index];
    let mut stay = 0;
    for i in 0..masks.len() {
        let level = levels[i];
        let members = masks[i];
        if !stays_beside(here_level, here, level, members) {
            continue;
        }
        masks[stay] = members;
        levels[stay] = level;
        stay += 1;
    }
    stay
}

// Simplifies the sets at the front of the pools: every index once, though drops have shifted the list. The
// answer is how many sets are left.
pub(crate) fn simplify(masks: &mut [u64], levels: &mut [u16]) -> usize
    requires { Front masks.old levels.old }
    ensures { let before = sets_of masks.old levels.old in
        let after = sets_in result masks.new levels.new in
        (result ≤ length masks.old) × (after ≡ simplified before) }
{
    let mut left = masks.len();
    let mut index = 0;
    // a `while`, not a `for`: each round may lower the end
    while index < left {
        left = drop_at(index, &mut masks[..left], &mut levels[..left]);
        index += 1;
    }
    left
}
