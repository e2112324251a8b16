// What the walk does at a place: the sums with the choice there, and without it again, and the places that
// are open after it.
ghost use Rattle.std.specs.Prelude.{◌≡◌, not, ◌&&◌, take, ◌==◌};
ghost use Rattle.base_choice_sets.specs.Sets.{has, set_of};
ghost use Rattle.plan_check.specs.Day.{day_lent};
ghost use Rattle.list_twins.specs.steps.Twins.{twins_of};
ghost use Rattle.list_walk.specs.steps.Sight.{still_open};
ghost use Rattle.list_walk.specs.steps.Stand.{put_at, added_at, taken_at, Taken, LeftPlace};

use list_look::open::SlotSums;
use list_look::see::near_end;
use list_starts::places::{amount_of, place_at};
use list_twins::twins::twins_of;
use plan_check::day::Day;
use plan_check::plan::OMITTED;

// Where a choice stands, and the minimum and the maximum that it brings there.
#[derive(Clone, Copy)]
pub struct Stood {
    pub place: usize,
    pub least: usize,
    pub most: usize,
}

// The plan with the choice at a place, by its number in a domain.
fn put_place(slots: usize, choice: usize, place: usize, plan: &mut [u8])
    ensures { plan.new ≡ put_at slots choice place plan.old }
{
    if 24 < slots {
        return;
    }
    if plan.len() <= choice {
        return;
    }
    if slots <= place {
        plan[choice] = OMITTED;
        return;
    }
    plan[choice] = place as u8;
}

// The sums with an amount more at a place.
fn add_at(slots: usize, place: usize, amount: usize, sums: &mut [usize; 24])
    ensures { sums.new ≡ added_at slots place amount sums.old }
{
    if 24 < slots {
        return;
    }
    if slots <= place {
        return;
    }
    sums[place] = sums[place].wrapping_add(amount);
}

// The sums with an amount taken away at a place. Not one function with the other way: adding wraps and taking
// away stops at 0, as the walk's definitions have it.
fn take_at(slots: usize, place: usize, amount: usize, sums: &mut [usize; 24])
    ensures { sums.new ≡ taken_at slots place amount sums.old }
{
    if 24 < slots {
        return;
    }
    if slots <= place {
        return;
    }
    sums[place] = sums[place].saturating_sub(amount);
}

// The choice takes the place with so many left, itself among them; the answer is what leave_place needs.
pub fn take_place(
    day: &Day,
    choice: usize,
    left: usize,
    plan: &mut [u8],
    sums: &mut SlotSums,
) -> Stood
    ensures { let day = day_lent day.now in
        Taken day.counts.slots choice left day.mins day.maxs plan.old plan.new
        sums.old.mins sums.new.mins sums.old.maxs sums.new.maxs result.place result.least result.most }
{
    let slots = day.counts.slots;
    let place = place_at(slots, left);
    let least = amount_of(day.mins, choice);
    let most = amount_of(day.maxs, choice);
    put_place(slots, choice, place, plan);
    add_at(slots, place, least, &mut sums.mins);
    add_at(slots, place, most, &mut sums.maxs);
    Stood { place, least, most }
}

// The choice leaves its place: the sums are as they were before it took it.
pub fn leave_place(slots: usize, stood: Stood, sums: &mut SlotSums)
    ensures { LeftPlace slots stood.place stood.least stood.most
        sums.old.mins sums.new.mins sums.old.maxs sums.new.maxs }
{
    take_at(slots, stood.place, stood.least, &mut sums.mins);
    take_at(slots, stood.place, stood.most, &mut sums.maxs);
}

// Whether no plan was met, by how many had been met before and how many have by now.
pub fn none_met(before: u64, met: u64) -> bool
    ensures { result ≡ (before == met) }
{
    before == met
}

// The places of a set without those of another.
fn without(places: u64, others: u64) -> u64
    ensures { result ≡ set_of 64 (λ place. has places place && not (has others place)) }
{
    places ^ (places & others)
}

// A choice's places without the twins of one of them.
fn without_twins(
    day: &Day,
    choice: usize,
    plan: &[u8],
    place: usize,
    places: u64,
    sums: &SlotSums,
) -> u64
    ensures { let day = day_lent day.now in
        let start = take choice plan.now in
        let twins = twins_of day.counts start day.rows sums.now.mins sums.now.maxs place in
        result ≡ set_of 64 (λ later. has places later && not (has twins later)) }
{
    let twins = twins_of(day, choice, plan, &sums.mins, &sums.maxs, place);
    without(places, twins)
}

// What is still open of a choice's places once it has stood at one of them: every place if a plan was met
// there, else not its twins. Near the end no twins are looked for.
pub fn pass_over(
    day: &Day,
    choice: usize,
    plan: &[u8],
    place: usize,
    unmet: bool,
    places: u64,
    sums: &SlotSums,
) -> u64
    ensures { let day = day_lent day.now in
        let start = take choice plan.now in
        result ≡ still_open day.counts choice start day.rows sums.now.mins sums.now.maxs place unmet places }
{
    if !unmet {
        return places;
    }
    if near_end(day.counts.choices, choice) {
        return places;
    }
    without_twins(day, choice, plan, place, places, sums)
}
