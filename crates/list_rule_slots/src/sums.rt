// 'Each slot: sum of min <= H <= sum of max', as a rule that takes places away.
ghost use Rattle.std.specs.Prelude.{◌≡◌, true, false, ◌+◌, ◌≤◌, leb, length};
ghost use Rattle.list_domains.specs.steps.Domains.{settled, kept_places};
ghost use Rattle.plan_check.specs.Day.{day_lent};
ghost use Rattle.list_rule_slots.specs.steps.SlotRules.{certain, possible, slots_leave, in_order, sums_leave, each_left, slots_rule};
ghost use Rattle.list_rule_slots.specs.steps.SumsLent.{must, may};

use super::limits::between;
use super::slot_sums::{Sums, add_choices, next_member};
use day_rows::check::Counts;
use list_domains::places::{is_settled, kept};
use plan_check::day::Day;

// Whether two numbers together are at most a third: the second is taken from it, so that no sum can be too large.
fn sum_fits(one: usize, other: usize, whole: usize) -> bool
    ensures { result ≡ leb (one + other) whole }
{
    if whole < other {
        return false;
    }
    one <= whole - other
}

// Whether 'sum of min <= H <= sum of max' can hold of every slot, by what must and what may stand there.
fn in_order(counts: Counts, sums: &Sums) -> bool
    requires { counts.slots ≤ 24 }
    ensures { result ≡ in_order counts (must sums.now) (may sums.now) }
{
    for slot in 0..counts.slots {
        if !between(sums.musts[slot], counts.choosers, sums.mays[slot]) {
            return false;
        }
    }
    true
}

// What a slot's sums leave to a free choice that has the slot: it may stand there by 'sum of min <= H' with its
// minimum more, and elsewhere by 'H <= sum of max' with its maximum less.
fn slot_leaves(
    choosers: usize,
    slot: usize,
    sure: usize,
    able: usize,
    least: usize,
    most: usize,
    left: u64,
) -> u64
    ensures { result ≡ kept_places left slot (leb (sure + least) choosers) (leb (choosers + most) able) }
{
    let stands = sum_fits(sure, least, choosers);
    let leaves = sum_fits(choosers, most, able);
    kept(left, slot, stands, leaves)
}

// What every slot leaves of a free choice's domain: a slot that the domain hasn't takes nothing away.
fn slots_leave(counts: Counts, sums: &Sums, least: usize, most: usize, domain: u64) -> u64
    requires { (counts.slots ≤ 24) × (settled domain ≡ false)
        × (in_order counts (must sums.now) (may sums.now) ≡ true) }
    ensures { let choosers = counts.choosers in
        result ≡ slots_leave choosers (must sums.now) (may sums.now) least most counts.slots domain }
{
    let mut left = domain;
    let mut slot = next_member(counts.slots, domain, 0);
    // No count: it goes from one of the domain's slots to the next, past those that it hasn't.
    while slot < counts.slots {
        left = slot_leaves(
            counts.choosers,
            slot,
            sums.musts[slot],
            sums.mays[slot],
            least,
            most,
            left,
        );
        slot = next_member(counts.slots, domain, slot + 1);
    }
    left
}

// What every slot leaves of one domain: nothing if the sums are out of order, else all of a settled domain.
fn sums_leave(
    counts: Counts,
    ordered: bool,
    sums: &Sums,
    least: usize,
    most: usize,
    domain: u64,
) -> u64
    requires { (counts.slots ≤ 24) × (ordered ≡ in_order counts (must sums.now) (may sums.now)) }
    ensures { result ≡ sums_leave counts (must sums.now) (may sums.now) least most domain }
{
    if !ordered {
        return 0;
    }
    if is_settled(domain) {
        return domain;
    }
    slots_leave(counts, sums, least, most, domain)
}

// Takes from every domain the places that the slots' sums leave to no plan.
fn narrow_each_choice(day: &Day, sums: &Sums, domains: &mut [u64; 64])
    requires { let day = day_lent day.now in
        (day.counts.choices ≤ 64) × (day.counts.slots ≤ 24)
        × (length day.mins ≡ day.counts.choices) × (length day.maxs ≡ day.counts.choices) }
    ensures { let day = day_lent day.now in
        let given = domains.old in
        domains.new ≡ each_left day.counts day.mins day.maxs (must sums.now) (may sums.now) given }
{
    let counts = day.counts;
    let mins = day.mins;
    let maxs = day.maxs;
    let ordered = in_order(counts, sums);
    for choice in 0..counts.choices {
        domains[choice] = sums_leave(
            counts,
            ordered,
            sums,
            usize::from(mins[choice]),
            usize::from(maxs[choice]),
            domains[choice],
        );
    }
}

// Narrows every domain by every slot of the day: all sums are taken once, and then every domain is narrowed.
fn narrow_by_each_slot(day: &Day, domains: &mut [u64; 64])
    requires { let day = day_lent day.now in
        (day.counts.choices ≤ 64) × (day.counts.slots ≤ 24)
        × (length day.mins ≡ day.counts.choices) × (length day.maxs ≡ day.counts.choices) }
    ensures { let day = day_lent day.now in
        let given = domains.old in
        let sure = certain day.counts.choices day.mins given in
        let able = possible day.counts.choices day.maxs given in
        domains.new ≡ each_left day.counts day.mins day.maxs sure able given }
{
    let mut sums = Sums {
        musts: [0usize; 24],
        mays: [0usize; 24],
    };
    add_choices(day, domains, &mut sums);
    narrow_each_choice(day, &sums, domains);
}

// Takes away every place that some slot's sums leave to no plan; what has no day's shape changes nothing.
pub fn narrow_by_slots(day: &Day, domains: &mut [u64; 64])
    ensures { let day = day_lent day.now in
        let given = domains.old in
        domains.new ≡ slots_rule day.counts day.mins day.maxs given }
{
    let counts = day.counts;
    if 64 < counts.choices {
        return;
    }
    if 24 < counts.slots {
        return;
    }
    if day.mins.len() != counts.choices {
        return;
    }
    if day.maxs.len() != counts.choices {
        return;
    }
    narrow_by_each_slot(day, domains);
}
