// A choice's min and max as wide as the sums; sums and decisions that are changed where they lie.
ghost use Rattle.std.specs.Prelude.{◌≡◌, ◌-◌, get_or};
ghost use Rattle.search_turn.specs.steps.State.{more_at, less_at, put_at, slot_at};

use search_candidates::decision::UNDECIDED;

// A choice's min or max; 0 past the list.
pub(crate) fn amount_at(amounts: &[u16], choice: usize) -> u32
    ensures { result ≡ get_or amounts.now choice 0 }
{
    u32::from(amounts.get(choice).copied().unwrap_or(0))
}

// The choice at a depth; 0 past the order.
pub(crate) fn choice_at(order: &[u8], depth: usize) -> usize
    ensures { result ≡ get_or order.now depth 0 }
{
    usize::from(order.get(depth).copied().unwrap_or(0))
}

// A slot's sum with an amount more, as much as 32 bits hold; past the slots nothing is done.
pub(crate) fn add_at(sums: &mut [u32; 24], slot: usize, amount: u32)
    ensures { sums.new ≡ more_at sums.old slot amount }
{
    if 24 <= slot {
        return;
    }
    sums[slot] = sums[slot].saturating_add(amount);
}

// A slot's sum with an amount less; past the slots nothing is done.
pub(crate) fn take_at(sums: &mut [u32; 24], slot: usize, amount: u32)
    ensures { sums.new ≡ less_at sums.old slot amount }
{
    if 24 <= slot {
        return;
    }
    sums[slot] = sums[slot].saturating_sub(amount);
}

// The choice stands at the place, whose slot is given back; past the choices nothing is done, and 24 is no
// slot.
pub(crate) fn decide_at(decisions: &mut [u8; 64], choice: usize, place: u8) -> usize
    ensures { let before = decisions.old in
        (decisions.new ≡ put_at before choice place) × (result ≡ slot_at choice place) }
{
    if 64 <= choice {
        return 24;
    }
    decisions[choice] = place;
    usize::from(place)
}

// The choice is undecided again, and the slot in which it stood is given back; past the choices nothing is
// done, and 24 is no slot.
pub(crate) fn clear_at(decisions: &mut [u8; 64], choice: usize) -> usize
    ensures { let before = decisions.old in
        (decisions.new ≡ put_at before choice 254) × (result ≡ slot_at choice (get_or before choice 0)) }
{
    if 64 <= choice {
        return 24;
    }
    let place = decisions[choice];
    decisions[choice] = UNDECIDED;
    usize::from(place)
}
