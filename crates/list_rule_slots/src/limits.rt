// Kind 6's sentence, '6: count of choices in the slot against the limit', as a rule that takes places away.
ghost use Rattle.std.specs.Prelude.{◌≡◌, ◌&&◌, not, ◌+◌, ◌-◌, ◌^◌, ◌≤◌, ◌<◌, eqb, leb};
ghost use Rattle.base_lists.specs.Below.{one};
ghost use Rattle.day_rows.specs.Row.{row_of};
ghost use Rattle.base_choice_sets.specs.Sets.{has};
ghost use Rattle.list_rule_slots.specs.steps.SlotRules.{must_count, may_count, op_can, limit_leaves, limit_rule};
ghost use Rattle.list_rule_slots.specs.steps.Limits.{limit_idle};

use base_choice_sets::set::member;
use day_rows::check::Counts;
use day_rows::op::Op;
use day_rows::row::Row;
use list_domains::places::{is_only, kept};

// How many choices must stand in a slot, and how many may.
#[derive(Clone, Copy)]
struct SlotCounts {
    must: usize,
    may: usize,
    ghost few: { (must ≤ 64) × (may ≤ 64) },
}

// How many choices must stand in a slot, and how many may, in one pass over the choices.
fn slot_counts(choices: usize, slot: usize, domains: &[u64; 64]) -> SlotCounts
    requires { choices ≤ 64 }
    ensures { let given = domains.now in
        (result.must ≡ must_count choices given slot) × (result.may ≡ may_count choices given slot) }
{
    let mut must = 0;
    let mut may = 0;
    for domain in &domains[..choices] {
        must += usize::from(is_only(*domain, slot));
        may += usize::from(member(*domain, slot));
    }
    SlotCounts { must, may }
}

// Whether a number lies from low to high.
pub(crate) fn between(low: usize, number: usize, high: usize) -> bool
    ensures { result ≡ (leb low number && leb number high) }
{
    if number < low {
        return false;
    }
    number <= high
}

// Whether another number than this one lies from low to high.
fn another(low: usize, number: usize, high: usize) -> bool
    ensures { result ≡ not (eqb low number && eqb high number) }
{
    if low != number {
        return true;
    }
    high != number
}

// Whether some count from low to high keeps the limit, by the op.
fn op_can(op: u16, low: usize, high: usize, limit: usize) -> bool
    ensures { result ≡ op_can op low high limit }
{
    match op {
        Op::EQ => between(low, limit, high),
        Op::NEQ => another(low, limit, high),
        Op::GT => limit < high,
        Op::LT => low < limit,
        Op::GEQ => limit <= high,
        Op::LEQ => low <= limit,
        _ => false,
    }
}

// What a row of kind 6 leaves of one domain, by the counts of its slot.
fn limit_leaves(row: Row, counts: SlotCounts, domain: u64) -> u64
    ensures { result ≡ limit_leaves row counts.must counts.may domain }
{
    let slot = row.left as usize;
    let limit = row.right as usize;
    let only = is_only(domain, slot);
    let has = member(domain, slot);
    let stands = op_can(
        row.extra,
        counts.must + usize::from(!only),
        counts.may + usize::from(!has),
        limit,
    );
    let leaves = op_can(
        row.extra,
        counts.must.saturating_sub(usize::from(only)),
        counts.may.saturating_sub(usize::from(has)),
        limit,
    );
    kept(domain, slot, stands, leaves)
}

// Whether a limit can be kept whichever one choice stands in the slot or elsewhere, so that the pass
// over the domains can be spared.
fn is_slack(row: Row, counts: SlotCounts) -> bool
    ensures { result ≡ limit_idle row counts.must counts.may }
{
    let limit = row.right as usize;
    if !op_can(row.extra, counts.must + 1, counts.may, limit) {
        return false;
    }
    if !op_can(row.extra, counts.must, counts.may.saturating_sub(1), limit) {
        return false;
    }
    if !op_can(row.extra, counts.must, counts.may, limit) {
        return false;
    }
    if !op_can(row.extra, counts.must + 1, counts.may + 1, limit) {
        return false;
    }
    op_can(
        row.extra,
        counts.must.saturating_sub(1),
        counts.may.saturating_sub(1),
        limit,
    )
}

// Takes from every domain what a row of kind 6 leaves to no plan.
fn narrow_each(counts: Counts, row: Row, domains: &mut [u64; 64])
    requires { (counts.choices ≤ 64) × (counts.slots ≤ 24) × (row.left < counts.slots) }
    ensures { domains.new ≡ limit_rule counts row domains.old }
{
    let slot_counts = slot_counts(counts.choices, row.left as usize, domains);
    if is_slack(row, slot_counts) {
        return;
    }
    for choice in 0..counts.choices {
        domains[choice] = limit_leaves(row, slot_counts, domains[choice]);
    }
}

// Takes away every place that a row of kind 6 leaves to no plan; a row of no slot of the day changes
// nothing. The caller looks at the kind.
pub fn narrow_by_limit(counts: Counts, number: u64, domains: &mut [u64; 64])
    ensures { domains.new ≡ limit_rule counts (row_of number) domains.old }
{
    let row = Row::from(number);
    if 64 < counts.choices {
        return;
    }
    if 24 < counts.slots {
        return;
    }
    if counts.slots <= row.left as usize {
        return;
    }
    narrow_each(counts, row, domains);
}
