// The page: where a plan of a number stands in the lent buffer.
ghost use Rattle.std.specs.Prelude.{◌≡◌, ◌+◌, ◌-◌, ◌≤◌, min, length};
ghost use Rattle.std.proofs.lemmas.List.Edits.{sets};
ghost use Rattle.list_starts.specs.steps.Starts.{put_within};

use super::asked::Asked;
use list_nodes::judge::buffer_fits;

// Copies a plan into the buffer from a place on, byte by byte: `copy_from_slice` would need `memmove`.
fn copy_at(plan: &[u8], buffer: &mut [u8], at: usize)
    requires { at + length plan.now ≤ length buffer.old }
    ensures { buffer.new ≡ sets buffer.old at plan.now }
{
    for (i, byte) in plan.iter().enumerate() {
        buffer[at + i] = *byte;
    }
}

// Puts a plan of the page at its place, and one of another page nowhere; in a buffer that isn't as long as
// its room says nothing is written.
pub(crate) fn put_plan(asked: &Asked, number: u64, plan: &[u8], buffer: &mut [u8])
    ensures { buffer.new ≡ put_within asked.now.first asked.now.room buffer.old number plan.now }
{
    if number < asked.first {
        return;
    }
    let place = number - asked.first;
    if asked.room <= place {
        return;
    }
    if !buffer_fits(plan.len(), asked.room, buffer.len()) {
        return;
    }
    copy_at(plan, buffer, place as usize * plan.len());
}

// How many plans of the list stand on the page.
pub fn written_of(asked: &Asked, total: u64) -> u64
    ensures { result ≡ min asked.now.room (total - asked.now.first) }
{
    asked.room.min(total.saturating_sub(asked.first))
}
