// A full start: the plan check once, or what is left of it at a start that is known to be a node; and what
// passes is numbered and put on the page.
ghost use Rattle.std.specs.Prelude.{◌≡◌, true, length, get_or};
ghost use Rattle.plan_check.specs.Day.{day_lent};
ghost use Rattle.plan_check.specs.Feasible.{is_feasible};
ghost use Rattle.list_starts.specs.steps.Starts.{slots_filled, full_passes, total_with, page_with};

use super::asked::Asked;
use super::page::put_plan;
use plan_check::day::Day;
use plan_check::feasible::is_feasible;
use plan_check::kept::keeps_every_row;

// Numbers a plan that passes and puts it on the page, if there is a number for the plan after it.
fn number_plan(asked: &Asked, plan: &[u8], total: &mut u64, buffer: &mut [u8])
    ensures { let page = page_with true asked.now.first asked.now.room
        plan.now buffer.old total.old in
        (total.new ≡ total_with true total.old) × (buffer.new ≡ page) }
{
    if *total >= u64::MAX {
        return;
    }
    put_plan(asked, *total, plan, buffer);
    *total += 1;
}

// Lists a full start: one plan more if the plan check passes it.
pub fn list_plan(day: &Day, asked: &Asked, plan: &mut [u8], total: &mut u64, buffer: &mut [u8])
    ensures { let passes = is_feasible (day_lent day.now) plan.old in
        let page = page_with passes asked.now.first asked.now.room
        plan.old buffer.old total.old in
        (total.new ≡ total_with passes total.old)
        × (buffer.new ≡ page)
        × (plan.new ≡ plan.old) }
{
    if !is_feasible(day, plan) {
        return;
    }
    number_plan(asked, plan, total, buffer);
}

// Whether each slot's sum of maximums reaches the headcount; with more than 24 slots the answer is no.
fn slots_filled(slots: usize, choosers: usize, slot_max: &[usize; 24]) -> bool
    ensures { result ≡ slots_filled slots choosers slot_max.now }
{
    if 24 < slots {
        return false;
    }
    for slot in 0..slots {
        if slot_max[slot] < choosers {
            return false;
        }
    }
    true
}

// Lists a full start whose places and sums of minimums are known to be allowed: one plan more if its sums of
// maximums and its rows are too.
pub fn list_full(
    day: &Day,
    asked: &Asked,
    slot_max: &[usize; 24],
    plan: &mut [u8],
    total: &mut u64,
    buffer: &mut [u8],
)
    ensures { let day = day_lent day.now in
        let passes = full_passes day.counts.slots day.counts.choosers
        day.rows slot_max.now plan.old in
        let page = page_with passes asked.now.first asked.now.room
        plan.old buffer.old total.old in
        (total.new ≡ total_with passes total.old)
        × (buffer.new ≡ page)
        × (plan.new ≡ plan.old) }
{
    if !slots_filled(day.counts.slots, day.counts.choosers, slot_max) {
        return;
    }
    if !keeps_every_row(plan, day.rows) {
        return;
    }
    number_plan(asked, plan, total, buffer);
}
