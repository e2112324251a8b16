// What the counts say of the free choices: how many of them each slot has at least, fewer than how many, and
// whether some slot can't have both.
ghost use Rattle.std.specs.Prelude.{◌≡◌, false, not, ◌+◌, ◌-◌, ◌≤◌, ◌<◌, ltb, get_or, replicate};
ghost use Rattle.base_lists.specs.Below.{all_below};
ghost use Rattle.list_tables.specs.steps.Tables.{written};
ghost use Rattle.plan_check.specs.Day.{day_lent};
ghost use Rattle.list_rule_tables.specs.steps.Figures.{first_in};
ghost use Rattle.list_rule_counts.specs.steps.CountRule.{has_limit, rooms_of};
ghost use Rattle.list_rule_counts.specs.steps.Figures.{beyond_in};
ghost use Rattle.list_rule_counts.specs.steps.Lent.{broken_by, wants_by};

use super::counts::{least_counts, settled_counts};
use super::limits::limit_by_rows;
use day_rows::kind::Kind;
use day_rows::row::Row;
use list_rule_tables::figures::{Figures, first_in};
use plan_check::day::Day;

// Whether some slot's least count is one that it can't have; at least how many free choices stand in each
// slot, and fewer than how many.
#[derive(Clone, Copy)]
pub struct Bounds {
    pub broken: bool,
    pub wants: [usize; 24],
    pub rooms: [usize; 24],
}

// Whether some row is a limit, that is of kind 6.
pub fn has_limit(rows: &[u64]) -> bool
    ensures { result ≡ has_limit rows.now }
{
    rows.iter().any(|number| Row::kind_of(*number) == Kind::SLOT_HAS_LIMITED_SIZE)
}

// What of each slot's figure is left to the free choices.
fn each_beyond(slots: usize, figures: &[usize; 24], settled: &[usize; 24]) -> [usize; 24]
    requires { slots ≤ 24 }
    ensures { result ≡ written slots 0 (beyond_in figures.now settled.now) (replicate 24 0) }
{
    let mut left = [0usize; 24];
    for slot in 0..slots {
        left[slot] = figures[slot].saturating_sub(settled[slot]);
    }
    left
}

// Whether some slot's least count is one that it can't have.
fn some_crossed(slots: usize, least: &[usize; 24], under: &[usize; 24]) -> bool
    requires { slots ≤ 24 }
    ensures { let low = least.now in
        let high = under.now in
        result ≡ not (all_below slots (λ slot. ltb (get_or low slot 0) (get_or high slot 0))) }
{
    for slot in 0..slots {
        if under[slot] <= least[slot] {
            return true;
        }
    }
    false
}

// The bounds of a day of another shape: nothing is broken, and all are 0.
fn no_bounds() -> Bounds
    ensures broken_value { result.broken ≡ false }
    ensures wants_value { (result.wants ≡ replicate 24 0) × (result.rooms ≡ replicate 24 0) }
{
    Bounds {
        broken: false,
        wants: [0usize; 24],
        rooms: [0usize; 24],
    }
}

// The bounds of a day whose slots and choices the arrays hold.
fn fitting_bounds(day: &Day, figures: &Figures, from: usize, domains: &[u64; 64]) -> Bounds
    requires { (day.now.counts.choices ≤ 64) × (day.now.counts.slots ≤ 24) }
    ensures broken_value { let day = day_lent day.now in
        result.broken ≡ broken_by figures.now day.counts day.rows from domains.now }
    ensures wants_value { let day = day_lent day.now in
        result.wants ≡ wants_by figures.now day.counts day.rows from domains.now }
    ensures rooms_value { let day = day_lent day.now in
        result.rooms ≡ rooms_of day.counts day.rows domains.now }
{
    let slots = day.counts.slots;
    let settled = settled_counts(slots, day.counts.choices, domains);
    let mut least = least_counts(slots, figures, from, &settled);
    // The first count that a slot can't have is past every limit before any, so that a slot without limits has
    // room for every choice.
    let mut under = [65537usize; 24];
    limit_by_rows(day.rows, &mut least, &mut under);
    Bounds {
        broken: some_crossed(slots, &least, &under),
        wants: each_beyond(slots, &least, &settled),
        rooms: each_beyond(slots, &under, &settled),
    }
}

// The bounds by the free choices, what the slots lack and the domains; of a day of another shape
// nothing is broken, and all are 0.
pub fn bounds_of(day: &Day, figures: &Figures, domains: &[u64; 64]) -> Bounds
    ensures broken_value { let day = day_lent day.now in
        let from = first_in day.counts.choices figures.now.free in
        result.broken ≡ broken_by figures.now day.counts day.rows from domains.now }
    ensures wants_value { let day = day_lent day.now in
        let from = first_in day.counts.choices figures.now.free in
        result.wants ≡ wants_by figures.now day.counts day.rows from domains.now }
    ensures rooms_value { let day = day_lent day.now in
        result.rooms ≡ rooms_of day.counts day.rows domains.now }
{
    let counts = day.counts;
    if 64 < counts.choices {
        return no_bounds();
    }
    if 24 < counts.slots {
        return no_bounds();
    }
    let from = first_in(counts.choices, figures.free);
    fitting_bounds(day, figures, from, domains)
}
