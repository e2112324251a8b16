// The search's test of critical sets, with the set of choices in each slot.
ghost use Rattle.std.specs.Prelude.{◌≡◌};
ghost use Rattle.base_choice_sets.specs.Sets.{meets};
ghost use Rattle.base_choice_sets.specs.Reach.{covered_slots, undecided_members, reach_of, stuck, some_stuck};

use super::set::size;

// Whether some choice is in both sets.
pub fn meet(one: u64, other: u64) -> bool
    ensures { result ≡ meets one other }
{
    (one & other) != 0
}

// The 'undecided members' of a set: its choices that aren't decided yet.
fn undecided_members(undecided: u64, set: u64) -> usize
    ensures { result ≡ undecided_members undecided set }
{
    size(set & undecided)
}

// The 'distinct covered slots' of a set: those in which a choice of the set stands.
fn covered_slots(slots: &[u64], set: u64) -> usize
    ensures { result ≡ covered_slots slots.now set }
{
    let mut covered = 0;
    for slot in slots {
        if !meet(*slot, set) {
            continue;
        }
        covered += 1;
    }
    covered
}

// Whether a set is stuck: 'distinct covered slots + undecided members < S', S being the number of slots.
// Where the undecided members alone reach S no slot is looked at.
pub fn is_stuck(slots: &[u64], undecided: u64, set: u64) -> bool
    ensures { result ≡ stuck slots.now undecided set }
{
    let members = undecided_members(undecided, set);
    if slots.len() <= members {
        return false;
    }
    covered_slots(slots, set) < slots.len() - members
}

// Whether some set of a list is stuck.
pub fn some_stuck(slots: &[u64], undecided: u64, sets: &[u64]) -> bool
    ensures { result ≡ some_stuck slots.now undecided sets.now }
{
    for set in sets {
        if is_stuck(slots, undecided, *set) {
            return true;
        }
    }
    false
}
