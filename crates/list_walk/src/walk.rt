// The walk itself, in request 03's form: each choice tries its places, and each place goes on to the next
// choice.
ghost use Rattle.std.specs.Prelude.{◌+◌, ◌-◌, true, length, take};
ghost use Rattle.plan_check.specs.Day.{day_lent};
ghost use Rattle.list_nodes.specs.steps.Run.{standing};
ghost use Rattle.list_walk.specs.steps.Sight.{events_from, events_seen, events_left};
ghost use Rattle.list_walk.specs.steps.Walks.{WalkReady, Walked, Takes};

use super::next::{next_after, open_next, rows_after};
use super::stand::{leave_place, none_met, pass_over, take_place};
use list_look::look::look_ahead;
use list_look::open::SlotSums;
use list_look::see::near_end;
use list_starts::asked::Asked;
use list_starts::full::list_full;
use list_starts::page_end::goes_on;
use list_tables::shape::TABLES;
use plan_check::day::Day;

// What is the same at every call: the page asked for, and the tables.
#[derive(Clone, Copy)]
pub(crate) struct Given<'a> {
    pub asked: &'a Asked,
    pub tables: &'a [u16; TABLES],
}

// 'one function per choice' of the walk: a start takes a turn, looks ahead if enough choices are left, and
// goes on to the places that are open.
#[cycle(walk_choice_walk_open_walk_place)]
pub(crate) fn walk_choice(
    given: &Given,
    day: &Day,
    domains: &[u64; 64],
    choice: usize,
    plan: &mut [u8],
    sums: &mut SlotSums,
    turns: &mut u64,
    met: &mut u64,
    buffer: &mut [u8],
) -> bool
    requires { let page = given.now.asked.now in
        WalkReady (day_lent day.now) page.first page.room choice choice
        plan.old sums.old.mins sums.old.maxs turns.old met.old buffer.old }
    ensures { let page = given.now.asked.now in
        let choices-left = length plan.old - choice in
        let start = take choice plan.old in
        let events = events_from (day_lent day.now) given.now.tables.now choices-left start
        sums.old.mins sums.old.maxs domains.now in
        let before = standing true turns.old met.old buffer.old in
        let after = standing result turns.new met.new buffer.new in
        Walked page.first page.room choice events
        plan.old plan.new sums.old.mins sums.new.mins
        sums.old.maxs sums.new.maxs before after }
{
    if *turns == 0 {
        return false;
    }
    *turns -= 1;
    if choice == plan.len() {
        list_full(day, given.asked, &sums.maxs, plan, met, buffer);
        return goes_on(given.asked, *met);
    }
    if near_end(plan.len(), choice) {
        return walk_open(given, day, domains, choice, plan, sums, turns, met, buffer);
    }
    let seen = look_ahead(day, given.tables, choice, plan, domains);
    walk_open(given, day, &seen, choice, plan, sums, turns, met, buffer)
}

// The places of a start that are open: its choice takes them one after the other; the rows that it decides
// are left behind.
#[cycle(walk_choice_walk_open_walk_place)]
fn walk_open(
    given: &Given,
    day: &Day,
    domains: &[u64; 64],
    choice: usize,
    plan: &mut [u8],
    sums: &mut SlotSums,
    turns: &mut u64,
    met: &mut u64,
    buffer: &mut [u8],
) -> bool
    requires { let page = given.now.asked.now in
        WalkReady (day_lent day.now) page.first page.room (choice + 1) choice
        plan.old sums.old.mins sums.old.maxs turns.old met.old buffer.old }
    ensures { let page = given.now.asked.now in
        let choices-left = length plan.old - (choice + 1) in
        let start = take choice plan.old in
        let events = events_seen (day_lent day.now) given.now.tables.now choices-left start
        sums.old.mins sums.old.maxs domains.now in
        let before = standing true turns.old met.old buffer.old in
        let after = standing result turns.new met.new buffer.new in
        Walked page.first page.room choice events
        plan.old plan.new sums.old.mins sums.new.mins
        sums.old.maxs sums.new.maxs before after }
{
    let opened = open_next(day, given.tables, choice, plan, sums, domains);
    if opened.left == 0 {
        return true;
    }
    let rows = rows_after(day.rows, opened.front);
    let after = Day { rows, ..*day };
    walk_place(
        given,
        &after,
        domains,
        choice,
        opened.places,
        opened.left,
        plan,
        sums,
        turns,
        met,
        buffer,
    )
}

// 'one per place' of the walk: the choice stands there while the walk goes on to the next choice; then it
// takes the next place that is still open.
#[cycle(walk_choice_walk_open_walk_place)]
fn walk_place(
    given: &Given,
    day: &Day,
    domains: &[u64; 64],
    choice: usize,
    places: u64,
    left: usize,
    plan: &mut [u8],
    sums: &mut SlotSums,
    turns: &mut u64,
    met: &mut u64,
    buffer: &mut [u8],
) -> bool
    requires { let page = given.now.asked.now in
        WalkReady (day_lent day.now) page.first page.room (choice + 1) choice
        plan.old sums.old.mins sums.old.maxs turns.old met.old buffer.old
        × Takes (day_lent day.now) choice places left sums.old.mins }
    ensures { let page = given.now.asked.now in
        let choices-left = length plan.old - (choice + 1) in
        let start = take choice plan.old in
        let events = events_left (day_lent day.now) given.now.tables.now choices-left start
        sums.old.mins sums.old.maxs domains.now places left in
        let before = standing true turns.old met.old buffer.old in
        let after = standing result turns.new met.new buffer.new in
        Walked page.first page.room choice events
        plan.old plan.new sums.old.mins sums.new.mins
        sums.old.maxs sums.new.maxs before after }
{
    let before = *met;
    let stood = take_place(day, choice, left, plan, sums);
    let place = stood.place;
    let going = walk_choice(
        given,
        day,
        domains,
        choice + 1,
        plan,
        sums,
        turns,
        met,
        buffer,
    );
    leave_place(day.counts.slots, stood, sums);
    if !going {
        return false;
    }
    let unmet = none_met(before, *met);
    let still = pass_over(day, choice, plan, place, unmet, places, sums);
    let next = next_after(day.counts.slots, still, left);
    if next == 0 {
        return true;
    }
    walk_place(
        given, day, domains, choice, still, next, plan, sums, turns, met, buffer,
    )
}
