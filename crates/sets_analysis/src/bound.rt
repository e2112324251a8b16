// The bound: 'the largest level, lowered to each level at which kept sets of that level or above exist and
// the smallest has at least S members'.
ghost use Rattle.std.specs.Prelude.{◌≡◌, cond, ◌≤◌, min, length};
ghost use Rattle.day_rows.specs.Levels.{last_level};
ghost use Rattle.sets_analysis.specs.Bound.{lowers, lowered_to};
ghost use Rattle.sets_analysis.specs.Calls.{sets_of};
ghost use Rattle.sets_analysis.specs.steps.Pools.{Front};

use super::level_tests::is_at_or_above;
use base_choice_sets::set::size;
use day_rows::lists::last_level;

// Whether a level lowers the bound: sets of that level or above exist and none has fewer than S members.
fn lowers_bound(slots: usize, level: u16, masks: &[u64], levels: &[u16]) -> bool
    requires { Front masks.now levels.now }
    ensures { result ≡ lowers slots (sets_of masks.now levels.now) level }
{
    let mut some = false;
    for i in 0..masks.len() {
        if !is_at_or_above(levels[i], level) {
            continue;
        }
        if size(masks[i]) < slots {
            return false;
        }
        some = true;
    }
    some
}

// The bound after one level was looked at.
fn lowered(slots: usize, bound: u16, level: u16, masks: &[u64], levels: &[u16]) -> u16
    requires { Front masks.now levels.now }
    ensures { let sets = sets_of masks.now levels.now in
        result ≡ cond (lowers slots sets level) (min bound level) bound }
{
    if bound <= level {
        return bound;
    }
    if !lowers_bound(slots, level, masks, levels) {
        return bound;
    }
    level
}

// The bound of the sets.
pub(crate) fn bound_of(slots: usize, levels: &[u16], masks: &[u64], set_levels: &[u16]) -> u16
    requires { Front masks.now set_levels.now × (1 ≤ length levels.now) }
    ensures { let sets = sets_of masks.now set_levels.now in
        result ≡ lowered_to slots sets (last_level levels.now) levels.now }
{
    let mut bound = last_level(levels);
    for level in levels {
        bound = lowered(slots, bound, *level, masks, set_levels);
    }
    bound
}
