// The tests of a new depth by maximums.
ghost use Rattle.std.specs.Prelude.{◌≡◌, ◌≤◌};
ghost use Rattle.search_candidates.specs.Bucket.{asked_lent};
ghost use Rattle.search_candidates.specs.Tests.{some_short};
ghost use Rattle.search_candidates.specs.steps.Maximums.{is_critical, Next};

use super::asked::Asked;
use super::loads::{load, together};

// The first critical slot from a slot on, or the number of slots where none is: 'slots with slot max +
// remaining max - this max < H are critical'; `rest` is what remains of max without this choice's.
pub(crate) fn next_critical(asked: &Asked, rest: u32, from: usize) -> usize
    requires { from ≤ asked.now.counts.slots }
    ensures { let asked = asked_lent asked.now in
        Next (is_critical asked.counts.choosers asked.loads.slot_max rest) from
        asked.counts.slots result }
{
    for slot in from..asked.counts.slots {
        if together(load(asked.loads.slot_max, slot), rest) < asked.counts.choosers {
            return slot;
        }
    }
    asked.counts.slots
}

// Whether a slot is short of maximums: 'no candidate if for some slot slot max + remaining max (this choice
// included) < H'. It is the test of a critical slot, with this choice's max in what remains.
pub(crate) fn some_short(asked: &Asked) -> bool
    ensures { let asked = asked_lent asked.now in
        result ≡ some_short asked.counts.slots asked.counts.choosers
        asked.loads asked.depth.remaining }
{
    next_critical(asked, asked.depth.remaining, 0) < asked.counts.slots
}
