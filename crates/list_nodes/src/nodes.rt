// The first run counts the nodes against the budget and looks at no plan: out of turns leaves the buffer
// untouched.
ghost use Rattle.std.specs.Prelude.{◌≡◌, true, ◌+◌, ◌-◌, ◌≤◌, length};
ghost use Rattle.plan_check.specs.Day.{day_lent};
ghost use Rattle.list_nodes.specs.steps.Walk.{nodes_from, nodes_past};
ghost use Rattle.list_nodes.specs.steps.Runs.{Walks, Counted};
ghost use Rattle.list_nodes.specs.steps.Nodes.{countable, nodes_within};

use day_rows::check::{Takes, counts_in_range};
use plan_check::day::Day;

// 'one function per choice' of the count: each start that is reached is a node, and spends one of the budget.
#[cycle(count_choice_count_place)]
fn count_choice(day: &Day, choice: usize, slot_min: &mut [usize; 24], left: &mut u64) -> bool
    requires { let day = day_lent day.now in
        Walks day.counts.slots day.counts.choosers day.mins day.optional choice slot_min.old }
    ensures { let day = day_lent day.now in
        let choices-left = length day.mins - choice in
        let nodes = nodes_from day.counts.slots day.counts.choosers day.mins day.optional
        choices-left choice slot_min.old in
        Counted nodes left.old left.new slot_min.old slot_min.new result }
{
    if *left == 0 {
        return false;
    }
    *left -= 1;
    if choice == day.mins.len() {
        return true;
    }
    count_place(day, choice, 0, slot_min, left)
}

// 'one per place' of the count: the slots from this one on, then omission; each goes on to the next choice.
#[cycle(count_choice_count_place)]
fn count_place(
    day: &Day,
    choice: usize,
    slot: usize,
    slot_min: &mut [usize; 24],
    left: &mut u64,
) -> bool
    requires { let day = day_lent day.now in
        Walks day.counts.slots day.counts.choosers day.mins day.optional (choice + 1) slot_min.old
        × (slot ≤ day.counts.slots) }
    ensures { let day = day_lent day.now in
        let choices-left = length day.mins - (choice + 1) in
        let nodes = nodes_past day.counts.slots day.counts.choosers day.mins day.optional
        choices-left choice slot_min.old slot in
        Counted nodes left.old left.new slot_min.old slot_min.new result }
{
    let mins = day.mins;
    if slot == day.counts.slots {
        if day.optional[choice] != 1 {
            return true;
        }
        return count_choice(day, choice + 1, slot_min, left);
    }
    let before = slot_min[slot];
    let after = before + usize::from(mins[choice]);
    if day.counts.choosers < after {
        return count_place(day, choice, slot + 1, slot_min, left);
    }
    slot_min[slot] = after;
    if !count_choice(day, choice + 1, slot_min, left) {
        return false;
    }
    slot_min[slot] = before;
    count_place(day, choice, slot + 1, slot_min, left)
}

// Whether a day's nodes can be counted: its counts in their ranges, a minimum and a flag for each choice.
fn can_count(day: &Day) -> bool
    ensures { result ≡ countable (day_lent day.now) }
{
    if !counts_in_range(day.counts, Takes::Scheduling) {
        return false;
    }
    if day.mins.len() != day.counts.choices {
        return false;
    }
    day.optional.len() == day.counts.choices
}

// The nodes of a day within the limits against the budget: a count from the empty start, with all sums 0.
fn count_all(day: &Day, budget: u64) -> Option<u64>
    requires { countable (day_lent day.now) ≡ true }
    ensures { result ≡ nodes_within (day_lent day.now) budget }
{
    let mut slot_min = [0usize; 24];
    let mut left = budget;
    if !count_choice(day, 0, &mut slot_min, &mut left) {
        return None;
    }
    Some(budget.saturating_sub(left))
}

// How many nodes a day has, if they are within the budget; a day past the limits is over any budget.
pub fn count_nodes(day: &Day, budget: u64) -> Option<u64>
    ensures { result ≡ nodes_within (day_lent day.now) budget }
{
    if !can_count(day) {
        return None;
    }
    count_all(day, budget)
}
