// The plan check on a day that is known to be one: passes over the choices, over the slots and over the rows.
ghost use Rattle.std.specs.Prelude.{◌≡◌, ◌+◌, ◌≤◌, ◌<◌, ◌^◌, get_or, set, replicate};
ghost use Rattle.base_lists.specs.Below.{all_below};
ghost use Rattle.plan_check.specs.Day.{day_lent};
ghost use Rattle.plan_check.specs.Feasible.{feasible, lengths_fit, is_feasible};
ghost use Rattle.plan_check.specs.steps.Sums.{Shapes, Added, listed_fits};

use super::day::Day;
use super::plan::omission_allowed;
use super::rows::keeps_rows;

// Adds an amount to a slot's entry: a minimum, a maximum, or 1 for a choice counted.
pub(crate) fn add_at(sums: &mut [u32; 24], slot: usize, amount: u32)
    requires { (slot < 24) × (get_or sums.old slot 0 + amount < 2 ^ 32) }
    ensures { sums.new ≡ set sums.old slot (get_or sums.old slot 0 + amount) }
{
    sums[slot] += amount;
}

// The pass over the choices: each slot's sums of minimums and maximums and its count of choices, up to an
// omission that isn't allowed.
fn add_up(
    day: &Day,
    plan: &[u8],
    slot_min: &mut [u32; 24],
    slot_max: &mut [u32; 24],
    sizes: &mut [u32; 24],
) -> bool
    requires shapes { let day = day_lent day.now in
        Shapes day.counts.slots day.mins day.maxs day.optional plan.now }
    requires cleared { (slot_min.old ≡ replicate 24 0) × (slot_max.old ≡ replicate 24 0)
        × (sizes.old ≡ replicate 24 0) }
    ensures { let day = day_lent day.now in
        Added day.counts.slots day.mins day.maxs day.optional plan.now result
        slot_min.new slot_max.new sizes.new }
{
    let mins = day.mins;
    let maxs = day.maxs;
    for (choice, place) in plan.iter().enumerate() {
        let slot = usize::from(*place);
        if day.counts.slots <= slot {
            if !omission_allowed(*place, day.optional[choice]) {
                return false;
            }
            continue;
        }
        add_at(slot_min, slot, u32::from(mins[choice]));
        add_at(slot_max, slot, u32::from(maxs[choice]));
        add_at(sizes, slot, 1);
    }
    true
}

// 'Each slot: sum of min <= H <= sum of max.'
fn slots_fit(slots: usize, choosers: usize, slot_min: &[u32; 24], slot_max: &[u32; 24]) -> bool
    requires { slots ≤ 24 }
    ensures { result ≡ all_below slots (listed_fits choosers slot_min.now slot_max.now) }
{
    for slot in 0..slots {
        if choosers < slot_min[slot] as usize {
            return false;
        }
        if (slot_max[slot] as usize) < choosers {
            return false;
        }
    }
    true
}

// Whether minimums, maximums, optional flags and plan have an entry for each choice.
pub(crate) fn lengths_fit(day: &Day, plan: &[u8]) -> bool
    ensures { let day = day_lent day.now in
        result ≡ lengths_fit day.counts.choices day.mins day.maxs day.optional plan.now }
{
    let choices = day.counts.choices;
    if day.mins.len() != choices {
        return false;
    }
    if day.maxs.len() != choices {
        return false;
    }
    if day.optional.len() != choices {
        return false;
    }
    plan.len() == choices
}

// The plan check's three passes, on what has the shape of a day.
fn passes(day: &Day, plan: &[u8]) -> bool
    requires { let day = day_lent day.now in
        Shapes day.counts.slots day.mins day.maxs day.optional plan.now }
    ensures { result ≡ feasible (day_lent day.now) plan.now }
{
    let mut slot_min = [0u32; 24];
    let mut slot_max = [0u32; 24];
    let mut sizes = [0u32; 24];
    if !add_up(day, plan, &mut slot_min, &mut slot_max, &mut sizes) {
        return false;
    }
    if !slots_fit(day.counts.slots, day.counts.choosers, &slot_min, &slot_max) {
        return false;
    }
    keeps_rows(day.rows, plan, &sizes)
}

// Whether a plan is feasible, for callers that have judged their day: of what a call judges only C, S and the
// lengths are tested here.
pub fn is_feasible(day: &Day, plan: &[u8]) -> bool
    ensures { result ≡ is_feasible (day_lent day.now) plan.now }
{
    if 64 < day.counts.choices {
        return false;
    }
    if 24 < day.counts.slots {
        return false;
    }
    if !lengths_fit(day, plan) {
        return false;
    }
    passes(day, plan)
}
