// A turn: the next candidate of the depth, or a step back where none is left.
ghost use Rattle.std.specs.Prelude.{◌≡◌};
ghost use Rattle.search_turn.specs.steps.State.{closes_at, turning, turn_of, Words};

use super::amount::{add_at, amount_at, choice_at, clear_at, decide_at, take_at};
use super::state::SearchState;

// Whether the pass ends: at depth 0 no candidate is left.
pub fn closes(depth: usize, next: &[usize; 65], end: &[usize; 65]) -> bool
    ensures { result ≡ closes_at depth next.now end.now }
{
    if depth != 0 {
        return false;
    }
    end[0] <= next[0]
}

// A step down to the next candidate, which is taken, or a step back; past the lists' ends nothing is done.
// One way out: with an early return the compiler copies the state once more. What the type of both lists says
// is promised too, for a caller that holds them in a record.
pub fn turned(
    state: SearchState,
    mins: &[u16],
    maxs: &[u16],
    order: &[u8],
    candidates: &[u8; 1625],
    next: &mut [usize; 65],
    end: &[usize; 65],
) -> SearchState
    ensures after { let after = turn_of mins.now maxs.now order.now
        state candidates.now next.old end.now in
        turning result next.new ≡ after }
    ensures words { Words mins.now × Words maxs.now }
{
    let mut after = state;
    let depth = after.depth;
    if depth <= 64 {
        let at = next[depth];
        if end[depth] <= at {
            if depth != 0 {
                let choice = choice_at(order, depth - 1);
                let max = amount_at(maxs, choice);
                let slot = clear_at(&mut after.decisions, choice);
                take_at(&mut after.slot_min, slot, amount_at(mins, choice));
                take_at(&mut after.slot_max, slot, max);
                take_at(&mut after.sizes, slot, 1);
                after.depth = depth - 1;
                after.is_new = false;
                after.remaining = after.remaining.saturating_add(max);
            }
        } else if at < 1625 {
            next[depth] = at + 1;
            let choice = choice_at(order, depth);
            let max = amount_at(maxs, choice);
            let slot = decide_at(&mut after.decisions, choice, candidates[at]);
            add_at(&mut after.slot_min, slot, amount_at(mins, choice));
            add_at(&mut after.slot_max, slot, max);
            add_at(&mut after.sizes, slot, 1);
            after.depth = depth + 1;
            after.is_new = true;
            after.remaining = after.remaining.saturating_sub(max);
        }
    }
    after
}
