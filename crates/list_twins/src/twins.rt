// The twins of a slot: exchanging the two in the places of the later choices turns plans into plans.
ghost use Rattle.std.specs.Prelude.{◌≡◌, ◌≤◌, ◌<◌, min, eqb, take};
ghost use Rattle.base_choice_sets.specs.Sets.{set_of};
ghost use Rattle.plan_check.specs.Day.{day_lent};
ghost use Rattle.list_twins.specs.steps.Twins.{twins_of};
ghost use Rattle.list_twins.specs.steps.Alike.{alike};

use super::names::named_slots;
use base_choice_sets::set::{member, with_if};
use day_rows::check::Counts;
use plan_check::day::Day;

// Whether the sums of two slots are the same.
fn same_sum(one: usize, other: usize) -> bool
    ensures { result ≡ eqb one other }
{
    one == other
}

// Whether the other slot isn't named and has the sums of the one, of maximums as far as the choosers go. The
// two lists of sums are lent one by one: the struct of both is list_look's, and this crate doesn't stand on it.
fn is_alike(
    choosers: usize,
    names: u64,
    slot_min: &[usize; 24],
    slot_max: &[usize; 24],
    slot: usize,
    other: usize,
) -> bool
    requires { (slot < 24) × (other < 24) }
    ensures { result ≡ alike choosers names slot_min.now slot_max.now slot other }
{
    if member(names, other) {
        return false;
    }
    if !same_sum(slot_min[slot], slot_min[other]) {
        return false;
    }
    same_sum(slot_max[slot].min(choosers), slot_max[other].min(choosers))
}

// The slots that are like a given one.
fn alike_slots(
    counts: Counts,
    names: u64,
    slot_min: &[usize; 24],
    slot_max: &[usize; 24],
    slot: usize,
) -> u64
    requires { (counts.slots ≤ 24) × (slot < counts.slots) }
    ensures { result ≡ set_of counts.slots (alike counts.choosers names slot_min.now slot_max.now slot) }
{
    let mut set = 0;
    for other in 0..counts.slots {
        let inside = is_alike(counts.choosers, names, slot_min, slot_max, slot, other);
        set = with_if(set, other, inside);
    }
    set
}

// A slot's twins before a choice takes its place, the sums being those of the choices before it;
// of a day of over 24 slots none.
pub fn twins_of(
    day: &Day,
    choice: usize,
    plan: &[u8],
    slot_min: &[usize; 24],
    slot_max: &[usize; 24],
    slot: usize,
) -> u64
    ensures { let day = day_lent day.now in
        let start = take choice plan.now in
        result ≡ twins_of day.counts start day.rows slot_min.now slot_max.now slot }
{
    let counts = day.counts;
    if 24 < counts.slots {
        return 0;
    }
    if counts.slots <= slot {
        return 0;
    }
    let names = named_slots(day.rows, choice, plan);
    if member(names, slot) {
        return 0;
    }
    alike_slots(counts, names, slot_min, slot_max, slot)
}
