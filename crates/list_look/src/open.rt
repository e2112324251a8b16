// The places that are open to the next choice: its domain has them, its minimum fits, and the choices after
// it are still enough.
ghost use Rattle.std.specs.Prelude.{◌≡◌, ◌≤◌, ◌<◌, get_or};
ghost use Rattle.base_choice_sets.specs.Sets.{has, set_of};
ghost use Rattle.plan_check.specs.Day.{day_lent};
ghost use Rattle.list_tables.specs.steps.Tables.{entry_at, weight_at};
ghost use Rattle.list_rule_tables.specs.steps.Enough.{lacks_at, need_of, weight_after, enough_with, enough_asked};
ghost use Rattle.list_look.specs.steps.Slots.{slot_fits, slot_open, leaves_enough, fitting};
ghost use Rattle.list_look.specs.steps.Open.{open_places};

use base_choice_sets::set::with_if;
use base_pools::number::flag_of;
use day_rows::check::Counts;
use list_starts::places::amount_of;
use list_tables::shape::TABLES;
use plan_check::day::Day;

// Each slot's sum of the minimums and of the maximums of the choices that stand there.
#[derive(Clone, Copy)]
pub struct SlotSums {
    pub mins: [usize; 24],
    pub maxs: [usize; 24],
}

// The next choice: what it brings to a slot, the places that it has left, and the slots' sums before it.
#[derive(Clone, Copy)]
struct Next<'a> {
    slots: usize,
    choosers: usize,
    least: usize,
    most: usize,
    flag: u8,
    domain: u64,
    sums: &'a SlotSums,
    ghost few: { slots ≤ 24 },
}

// What the tables say of the choices from one on: the slots' lacks need so much of them, and they have so much.
#[derive(Clone, Copy)]
struct Rest<'a> {
    tables: &'a [u16; TABLES],
    from: usize,
    need: usize,
    spare: usize,
    ghost in_range: { (from ≤ 64) × (need ≤ 1572840) × (spare ≤ 4194240) },
}

// Whether the tables hold the day and the choice is one of it.
fn is_asked(counts: Counts, choice: usize) -> bool
    requires { counts.slots ≤ 24 }
    ensures { result ≡ enough_asked counts choice }
{
    if 200 < counts.choosers {
        return false;
    }
    if 64 < counts.choices {
        return false;
    }
    choice < counts.choices
}

// What the lightest of the choices from one on that fill a lack weigh together, by table 1.
fn lightest(tables: &[u16; TABLES], from: usize, lack: usize) -> usize
    requires { (from ≤ 64) × (lack ≤ 200) }
    ensures { (result ≡ entry_at tables.now 1 from lack) × (result ≤ 65535) }
{
    usize::from(tables[(65 + from) * 201 + lack])
}

// A choice's weight in table 1.
fn weight_of(tables: &[u16; TABLES], choice: usize) -> usize
    requires { choice < 64 }
    ensures { (result ≡ weight_at tables.now 1 choice) × (result ≤ 65535) }
{
    usize::from(tables[52324 + choice])
}

// What the choices from one on weigh together in table 1: 64 weights at most, each at most 65,535.
fn weight_after(tables: &[u16; TABLES], choices: usize, from: usize) -> usize
    requires { (choices ≤ 64) × (from ≤ choices) }
    ensures { (result ≡ weight_after (weight_at tables.now) choices from) × (result ≤ 4194240) }
{
    let mut spare = 0;
    for choice in from..choices {
        spare += weight_of(tables, choice);
    }
    spare
}

// What the slots' lacks weigh together, at the least: 24 entries at most, each at most 65,535.
fn need_by_fills(next: &Next, tables: &[u16; TABLES], from: usize) -> usize
    requires { (next.now.choosers ≤ 200) × (from ≤ 64) }
    ensures { let n = next.now in
        let lacks = lacks_at n.choosers n.slots n.sums.now.maxs in
        (result ≡ need_of (entry_at tables.now) n.slots 1 from lacks) × (result ≤ 1572840) }
{
    let mut need = 0;
    for slot in 0..next.slots {
        need += lightest(
            tables,
            from,
            next.choosers.saturating_sub(next.sums.maxs[slot]),
        );
    }
    need
}

// Whether the domain has a place, by its number; no place's number is past 24, so that it need not be tested.
fn has_place(domain: u64, place: usize) -> bool
    requires { place ≤ 24 }
    ensures { result ≡ has domain place }
{
    (domain >> place) & 1 == 1
}

// Whether the domain has the slot and the choice's minimum fits there.
fn slot_fits(next: &Next, slot: usize) -> bool
    requires { let n = next.now in
        (slot < 24) × (n.least ≤ n.choosers) }
    ensures { let n = next.now in
        result ≡ slot_fits n.choosers n.least n.sums.now.mins n.domain slot }
{
    if !has_place(next.domain, slot) {
        return false;
    }
    next.sums.mins[slot] <= next.choosers - next.least
}

// The slots of the domain in which the choice's minimum fits.
fn fitting_slots(next: &Next) -> u64
    ensures { let n = next.now in
        result ≡ set_of n.slots (slot_fits n.choosers n.least n.sums.now.mins n.domain) }
{
    if next.choosers < next.least {
        return 0;
    }
    let mut found = 0;
    for slot in 0..next.slots {
        found = with_if(found, slot, slot_fits(next, slot));
    }
    found
}

// The places of the domain that fit: the slots in which the minimum does, and omission if the flag says so.
fn fitting_places(next: &Next) -> u64
    ensures { let n = next.now in
        result ≡ fitting n.slots n.choosers n.least n.flag n.sums.now.mins n.domain }
{
    let found = fitting_slots(next);
    if next.flag != 1 {
        return found;
    }
    with_if(found, next.slots, has_place(next.domain, next.slots))
}

// Whether the choice in the slot leaves enough of the choices after it for what the slots lack.
fn leaves_enough(next: &Next, rest: &Rest, slot: usize) -> bool
    requires { (slot < 24) × (next.now.choosers ≤ 200) }
    ensures { let n = next.now in
        let r = rest.now in
        let entry = entry_at r.tables.now in
        result ≡ leaves_enough entry n.choosers r.from n.sums.now.maxs n.most r.need r.spare slot }
{
    let lack = next.choosers.saturating_sub(next.sums.maxs[slot]);
    let less = lightest(rest.tables, rest.from, lack.saturating_sub(next.most));
    let whole = lightest(rest.tables, rest.from, lack);
    less + rest.need <= rest.spare + whole
}

// Whether a slot is open to a choice that is needed: its minimum fits there, and with it there enough is
// left. A slot that lacks nothing isn't open.
fn slot_open(next: &Next, rest: &Rest, slot: usize) -> bool
    requires { let n = next.now in
        (slot < 24) × (n.choosers ≤ 200) × (n.least ≤ n.choosers) × (rest.now.spare < rest.now.need) }
    ensures { let n = next.now in
        let r = rest.now in
        let entry = entry_at r.tables.now in
        result ≡ slot_open entry n.choosers r.from n.sums.now.maxs n.least n.sums.now.mins n.most
        r.need r.spare n.domain slot }
{
    if next.choosers <= next.sums.maxs[slot] {
        return false;
    }
    if !slot_fits(next, slot) {
        return false;
    }
    leaves_enough(next, rest, slot)
}

// The slots that are open to a choice that is needed.
fn open_slots(next: &Next, rest: &Rest) -> u64
    requires { (next.now.choosers ≤ 200) × (rest.now.spare < rest.now.need) }
    ensures { let n = next.now in
        let r = rest.now in
        let entry = entry_at r.tables.now in
        let opens = slot_open entry n.choosers r.from n.sums.now.maxs n.least n.sums.now.mins n.most
        r.need r.spare n.domain in
        result ≡ set_of n.slots opens }
{
    if next.choosers < next.least {
        return 0;
    }
    let mut found = 0;
    for slot in 0..next.slots {
        found = with_if(found, slot, slot_open(next, rest, slot));
    }
    found
}

// The places that are open on a day that the tables hold: those that fit if the choices after this one are
// enough without it, else the slots in which it leaves enough.
fn places_left(next: &Next, tables: &[u16; TABLES], from: usize, spare: usize) -> u64
    requires { (next.now.choosers ≤ 200) × (from ≤ 64) × (spare ≤ 4194240) }
    ensures { let n = next.now in
        let lacks = lacks_at n.choosers n.slots n.sums.now.maxs in
        let enough = enough_with (entry_at tables.now) n.slots from lacks n.most spare n.domain in
        result ≡ fitting n.slots n.choosers n.least n.flag n.sums.now.mins enough }
{
    let need = need_by_fills(next, tables, from);
    if need <= spare {
        return fitting_places(next);
    }
    let rest = Rest {
        tables,
        from,
        need,
        spare,
    };
    open_slots(next, &rest)
}

// The places that are open to the next choice; with more slots than a day has none is.
pub fn open_places(
    day: &Day,
    tables: &[u16; TABLES],
    choice: usize,
    sums: &SlotSums,
    domain: u64,
) -> u64
    ensures { let day = day_lent day.now in
        let entry = entry_at tables.now in
        let weight = weight_at tables.now in
        result ≡ open_places entry weight day.counts day.mins day.maxs day.optional choice
        sums.now.mins sums.now.maxs domain }
{
    let counts = day.counts;
    if 24 < counts.slots {
        return 0;
    }
    let next = Next {
        slots: counts.slots,
        choosers: counts.choosers,
        least: amount_of(day.mins, choice),
        most: amount_of(day.maxs, choice),
        flag: flag_of(day.optional, choice),
        domain,
        sums,
    };
    if !is_asked(counts, choice) {
        return fitting_places(&next);
    }
    let from = choice + 1;
    let spare = weight_after(tables, counts.choices, from);
    places_left(&next, tables, from, spare)
}
