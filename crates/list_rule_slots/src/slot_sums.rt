// Every slot's two sums in one pass over the choices: the minimums that must stand
// there, and the maximums that may.
ghost use Rattle.std.specs.Prelude.{◌≡◌, true, ◌≤◌, length, replicate};
ghost use Rattle.base_choice_sets.specs.Sets.{has};
ghost use Rattle.list_domains.specs.steps.Domains.{settled};
ghost use Rattle.plan_check.specs.Day.{day_lent};
ghost use Rattle.list_rule_slots.specs.steps.Sums.{NextIn, added_to, Small, SumsOf};
ghost use Rattle.list_rule_slots.specs.steps.SumsLent.{small, added};

use list_domains::places::{is_settled, lowest_place};
use plan_check::day::Day;

// Every slot's sums: of the minimums that must stand there, and of the maximums that may.
#[derive(Clone, Copy)]
pub(crate) struct Sums {
    pub musts: [usize; 24],
    pub mays: [usize; 24],
}

// The first slot of a set from one on, the number of slots if there is none.
pub(crate) fn next_member(slots: usize, set: u64, from: usize) -> usize
    requires { (slots ≤ 24) × (from ≤ slots) }
    ensures { NextIn slots set from result }
{
    let place = from + u64::trailing_zeros(set >> from) as usize;
    if slots <= place {
        return slots;
    }
    place
}

// Adds a settled choice's minimum and maximum to the sums of its one place, if that is one of the slots.
fn add_settled(slots: usize, least: usize, most: usize, domain: u64, sums: &mut Sums)
    requires { (slots ≤ 24) × (settled domain ≡ true) × (least ≤ 65535) × (most ≤ 65535)
        × small slots sums.old }
    ensures { added slots least most domain sums.old sums.new }
{
    let slot = lowest_place(domain);
    if slots <= slot {
        return;
    }
    sums.musts[slot] += least;
    sums.mays[slot] += most;
}

// Adds a choice's maximum in each slot that its domain has: there it may stand.
fn add_free(slots: usize, most: usize, domain: u64, mays: &mut [usize; 24])
    requires { (slots ≤ 24) × (most ≤ 65535) × Small slots mays.old }
    ensures { mays.new ≡ added_to slots (has domain) most mays.old }
{
    let mut slot = next_member(slots, domain, 0);
    // No count: it goes from one of the domain's slots to the next, past those that it hasn't.
    while slot < slots {
        mays[slot] += most;
        slot = next_member(slots, domain, slot + 1);
    }
}

// Adds a choice's minimum where it must stand, and its maximum where it may.
fn add_choice(slots: usize, least: usize, most: usize, domain: u64, sums: &mut Sums)
    requires { (slots ≤ 24) × (least ≤ 65535) × (most ≤ 65535) × small slots sums.old }
    ensures { added slots least most domain sums.old sums.new }
{
    if is_settled(domain) {
        add_settled(slots, least, most, domain, sums);
        return;
    }
    add_free(slots, most, domain, &mut sums.mays);
}

// Adds every choice of the day to the sums, which are all 0 before.
pub(crate) fn add_choices(day: &Day, domains: &[u64; 64], sums: &mut Sums)
    requires { let day = day_lent day.now in
        (day.counts.choices ≤ 64) × (day.counts.slots ≤ 24)
        × (length day.mins ≡ day.counts.choices) × (length day.maxs ≡ day.counts.choices)
        × (sums.old.musts ≡ replicate 24 0) × (sums.old.mays ≡ replicate 24 0) }
    ensures { let day = day_lent day.now in
        let given = domains.now in
        SumsOf day.counts.slots day.counts.choices day.mins day.maxs given sums.new.musts sums.new.mays }
{
    let counts = day.counts;
    let mins = day.mins;
    let maxs = day.maxs;
    for choice in 0..counts.choices {
        add_choice(
            counts.slots,
            usize::from(mins[choice]),
            usize::from(maxs[choice]),
            domains[choice],
            sums,
        );
    }
}
