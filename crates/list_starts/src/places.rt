// The places of a choice, 'slots before omission', and the next of them that it may take.
ghost use Rattle.std.specs.Prelude.{◌≡◌, [], ◌∷◌, ◌-◌, ◌≤◌, get_or};
ghost use Rattle.plan_check.specs.Day.{day_lent};
ghost use Rattle.list_nodes.specs.steps.Walk.{place_of, place_fits, next_open};
ghost use Rattle.list_starts.specs.steps.Starts.{open_within};

use base_pools::number::flag_of;
use plan_check::day::Day;

// The place with so many places left, itself among them: the slots by their numbers, then omission.
pub fn place_at(slots: usize, left: usize) -> usize
    ensures { result ≡ slots - (left - 1) }
{
    slots.saturating_sub(left.saturating_sub(1))
}

// A choice's minimum or maximum, 0 of one past the list.
pub fn amount_of(amounts: &[u16], choice: usize) -> usize
    ensures { (result ≡ get_or amounts.now choice 0) × (result ≤ 65535) }
{
    if amounts.len() <= choice {
        return 0;
    }
    usize::from(amounts[choice])
}

// Whether a choice with this minimum may take a place: a slot whose sum of minimums stays within the
// headcount, or omission if its flag says so.
fn fits(
    slots: usize,
    choosers: usize,
    least: usize,
    flag: u8,
    place: usize,
    slot_min: &[usize; 24],
) -> bool
    requires { (slots ≤ 24) × (place ≤ slots) }
    ensures { let minimums = least ∷ [] in
        let flags = flag ∷ [] in
        result ≡ place_fits slots choosers minimums flags slot_min.now 0 (place_of slots place) }
{
    if place == slots {
        return flag == 1;
    }
    if choosers < least {
        return false;
    }
    slot_min[place] <= choosers - least
}

// How many places are left from the next one on that a choice with this minimum may take; 0 if there is none.
fn first_open(
    slots: usize,
    choosers: usize,
    least: usize,
    flag: u8,
    left: usize,
    slot_min: &[usize; 24],
) -> usize
    requires { slots ≤ 24 }
    ensures { result ≡ next_open slots choosers (least ∷ []) (flag ∷ []) slot_min.now 0 left }
{
    if left == 0 {
        return 0;
    }
    let place = place_at(slots, left);
    if fits(slots, choosers, least, flag, place, slot_min) {
        return left;
    }
    first_open(slots, choosers, least, flag, left - 1, slot_min)
}

// How many places are left from the next one on that the choice may take; 0 if there is none, or if there are
// more slots than a day may have.
pub fn next_open(day: &Day, choice: usize, left: usize, slot_min: &[usize; 24]) -> usize
    ensures { let day = day_lent day.now in
        result ≡ open_within day.counts.slots day.counts.choosers day.mins day.optional
        slot_min.now choice left }
{
    let slots = day.counts.slots;
    if 24 < slots {
        return 0;
    }
    let least = amount_of(day.mins, choice);
    let flag = flag_of(day.optional, choice);
    first_open(slots, day.counts.choosers, least, flag, left, slot_min)
}
