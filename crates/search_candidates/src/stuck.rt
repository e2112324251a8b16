// The test of critical sets at a new depth.
ghost use Rattle.std.specs.Prelude.{◌≡◌, ◌≤◌, replicate};
ghost use Rattle.search_candidates.specs.Tests.{held_by, undecided_of, sets_stuck};

use super::decision::{UNDECIDED, decision_of};
use base_choice_sets::reach::some_stuck;
use base_choice_sets::set::with;

// The undecided choices as a set.
fn undecided_of(decisions: &[u8], choices: usize) -> u64
    requires { choices ≤ 64 }
    ensures { result ≡ undecided_of choices decisions.now }
{
    let mut undecided = 0;
    for choice in 0..choices {
        if decision_of(decisions, choice) != UNDECIDED {
            continue;
        }
        undecided = with(undecided, choice);
    }
    undecided
}

// The choices in each of the 24 slots that a day may have, each slot's as a set, in a lent list of empty ones:
// handed back by value it would stand on the stack three times.
fn held_by(decisions: &[u8], choices: usize, held: &mut [u64; 24])
    requires { (choices ≤ 64) × (held.old ≡ replicate 24 0) }
    ensures { held.new ≡ held_by choices 24 decisions.now }
{
    for choice in 0..choices {
        let slot = usize::from(decision_of(decisions, choice));
        if 24 <= slot {
            continue;
        }
        held[slot] = with(held[slot], choice);
    }
}

// Whether a critical set is stuck: 'a critical set has distinct covered slots + undecided members < S'.
pub(crate) fn sets_stuck(choices: usize, slots: usize, decisions: &[u8], sets: &[u64]) -> bool
    requires { (choices ≤ 64) × (slots ≤ 24) }
    ensures { result ≡ sets_stuck choices slots decisions.now sets.now }
{
    if sets.is_empty() {
        return false;
    }
    let mut held = [0u64; 24];
    held_by(decisions, choices, &mut held);
    some_stuck(&held[0..slots], undecided_of(decisions, choices), sets)
}
