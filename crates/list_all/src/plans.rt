// The listing's second run, within the budget: each full start is given to the plan check once, and what
// passes is numbered and put on the page.
ghost use Rattle.std.specs.Prelude.{◌≡◌, ◌+◌, ◌-◌, ◌≤◌, ◌<◌, length, get_or, set, take};
ghost use Rattle.plan_check.specs.Day.{day_lent};
ghost use Rattle.list_nodes.specs.steps.Walk.{place_of, sums_with, sums_without, plans_from, plans_left};
ghost use Rattle.list_nodes.specs.steps.Runs.{Stands, Lists, Listing, Open};

use list_starts::asked::Asked;
use list_starts::full::list_plan;
use list_starts::places::{next_open, place_at};
use plan_check::day::Day;
use plan_check::plan::OMITTED;

// The choice takes a place: it stands there in the plan, and its minimum is in the slot's sum.
fn take_place(
    day: &Day,
    choice: usize,
    place: usize,
    plan: &mut &mut [u8],
    slot_min: &mut [usize; 24],
)
    requires { let day = day_lent day.now in
        (choice < length day.mins) × (length day.mins ≤ 64)
        × (choice < length plan.old.now) × (place ≤ day.counts.slots) × (day.counts.slots ≤ 24)
        × (get_or slot_min.old place 0 ≤ 200) }
    ensures { let day = day_lent day.now in
        let taken = place_of day.counts.slots place in
        (plan.new.now ≡ set plan.old.now choice taken)
        × (slot_min.new ≡ sums_with day.counts.slots day.mins slot_min.old choice taken) }
{
    let mins = day.mins;
    if place == day.counts.slots {
        plan[choice] = OMITTED;
        return;
    }
    slot_min[place] += usize::from(mins[choice]);
    plan[choice] = place as u8;
}

// The choice leaves its place: the sums are as they were before it took it.
fn leave_place(day: &Day, choice: usize, place: usize, slot_min: &mut [usize; 24])
    requires { let day = day_lent day.now in
        Stands day.counts.slots day.mins choice place slot_min.old }
    ensures { let day = day_lent day.now in
        let taken = place_of day.counts.slots place in
        slot_min.new ≡ sums_without day.counts.slots day.mins slot_min.old choice taken }
{
    let mins = day.mins;
    if place == day.counts.slots {
        return;
    }
    slot_min[place] -= usize::from(mins[choice]);
}

// 'one function per choice' of the listing: fills in the choice, from the first place on that it may take.
// A slice is copied at each call, a reference to it isn't; the buffer alone can't be had behind one.
#[cycle(list_choice_list_place)]
pub(crate) fn list_choice(
    day: &Day,
    asked: &Asked,
    choice: usize,
    plan: &mut &mut [u8],
    slot_min: &mut [usize; 24],
    total: &mut u64,
    buffer: &mut [u8],
)
    requires { let day = day_lent day.now in
        let choices-left = length plan.old.now - choice in
        let plans = plans_from day choices-left (take choice plan.old.now) slot_min.old in
        Lists day asked.now.room choice plan.old.now slot_min.old plans total.old buffer.old }
    ensures { let day = day_lent day.now in
        let choices-left = length plan.old.now - choice in
        let plans = plans_from day choices-left (take choice plan.old.now) slot_min.old in
        Listing asked.now.first asked.now.room choice plans
        plan.old.now plan.new.now slot_min.old slot_min.new
        total.old total.new buffer.old buffer.new }
{
    if choice == plan.len() {
        list_plan(day, asked, *plan, total, buffer);
        return;
    }
    let left = next_open(day, choice, day.counts.slots + 1, slot_min);
    if left == 0 {
        return;
    }
    list_place(day, asked, choice, left, plan, slot_min, total, buffer);
}

// 'one per place' of the listing: the choice stands there while the listing goes on to the next choice; then
// it takes the next place that it may.
#[cycle(list_choice_list_place)]
fn list_place(
    day: &Day,
    asked: &Asked,
    choice: usize,
    left: usize,
    plan: &mut &mut [u8],
    slot_min: &mut [usize; 24],
    total: &mut u64,
    buffer: &mut [u8],
)
    requires { let day = day_lent day.now in
        let choices-left = length plan.old.now - (choice + 1) in
        let plans = plans_left day choices-left (take choice plan.old.now) slot_min.old left in
        Lists day asked.now.room (choice + 1) plan.old.now slot_min.old plans total.old buffer.old
        × Open day choice left slot_min.old }
    ensures { let day = day_lent day.now in
        let choices-left = length plan.old.now - (choice + 1) in
        let plans = plans_left day choices-left (take choice plan.old.now) slot_min.old left in
        Listing asked.now.first asked.now.room choice plans
        plan.old.now plan.new.now slot_min.old slot_min.new
        total.old total.new buffer.old buffer.new }
{
    let place = place_at(day.counts.slots, left);
    take_place(day, choice, place, plan, slot_min);
    list_choice(day, asked, choice + 1, plan, slot_min, total, buffer);
    leave_place(day, choice, place, slot_min);
    let next = next_open(day, choice, left - 1, slot_min);
    if next == 0 {
        return;
    }
    list_place(day, asked, choice, next, plan, slot_min, total, buffer);
}
