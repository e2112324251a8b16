// A free choice loses a slot that has no room for it and for as many more as
// fill the rest of the slot's lack.
ghost use Rattle.std.specs.Prelude.{◌≡◌, true, false, ◌&&◌, cond, suc, ◌+◌, ◌-◌, ◌≤◌, ◌<◌, leb, length};
ghost use Rattle.list_tables.specs.steps.Tables.{entry_at};
ghost use Rattle.list_domains.specs.steps.Domains.{kept_places};
ghost use Rattle.plan_check.specs.Day.{day_lent};
ghost use Rattle.list_rule_tables.specs.steps.Figures.{first_in};
ghost use Rattle.list_rule_counts.specs.steps.CountRule.{slot_rule};
ghost use Rattle.list_rule_counts.specs.steps.Lent.{rooms_by};

use base_choice_sets::set::member;
use list_domains::places::kept;
use list_rule_tables::figures::Figures;
use list_tables::entry::least_at;
use list_tables::shape::TABLES;
use plan_check::day::Day;

// Whether a slot that takes so many other choices has no room for one more.
fn is_full(room: usize, others: usize) -> bool
    requires { others ≤ 65535 }
    ensures { result ≡ leb room (others + 1) }
{
    room <= others + 1
}

// What a slot's room leaves of one domain: a free choice loses the slot if that is full with it.
fn left_with(
    free: bool,
    tables: &[u16; TABLES],
    from: usize,
    lack: usize,
    most: u16,
    room: usize,
    slot: usize,
    domain: u64,
) -> u64
    ensures { let others = entry_at tables.now 0 from (lack - most) in
        result ≡ cond (free && leb room (suc others)) (kept_places domain slot false true) domain }
{
    if !free {
        return domain;
    }
    let others = least_at(tables, 0, from, lack.saturating_sub(usize::from(most)));
    if !is_full(room, others) {
        return domain;
    }
    kept(domain, slot, false, true)
}

// Narrows every choice's domain from the first free one on by one slot's room: a slot that has room
// for all of them is lost to none.
fn narrow_slot(
    day: &Day,
    figures: &Figures,
    from: usize,
    rooms: &[usize; 24],
    slot: usize,
    domains: &mut [u64; 64],
)
    requires { let day = day_lent day.now in
        (slot < 24) × ((day.counts.choices ≤ 64) × ((length day.maxs ≡ day.counts.choices)
        × (from ≡ first_in day.counts.choices figures.now.free))) }
    ensures { let day = day_lent day.now in
        let entry = entry_at figures.now.tables.now in
        let free = figures.now.free in
        let lack = figures.now.lacks.now in
        let room = rooms.now in
        domains.new ≡ slot_rule entry day.counts.choices day.maxs free from lack room slot domains.old }
{
    let room = rooms[slot];
    if 64 < room {
        return;
    }
    let lack = figures.lacks[slot];
    let maxs = day.maxs;
    for choice in from..day.counts.choices {
        let domain = domains[choice];
        domains[choice] = left_with(
            member(figures.free, choice),
            figures.tables,
            from,
            lack,
            maxs[choice],
            room,
            slot,
            domain,
        );
    }
}

// Narrows the domains by every slot's room, one slot after the other.
pub(crate) fn narrow_by_rooms(
    day: &Day,
    figures: &Figures,
    from: usize,
    rooms: &[usize; 24],
    domains: &mut [u64; 64],
)
    requires { let day = day_lent day.now in
        (day.counts.slots ≤ 24) × ((day.counts.choices ≤ 64) × ((length day.maxs ≡ day.counts.choices)
        × (from ≡ first_in day.counts.choices figures.now.free))) }
    ensures { let day = day_lent day.now in
        let slots = day.counts.slots in
        domains.new ≡ rooms_by figures.now rooms.now day.counts.choices day.maxs from slots domains.old }
{
    for slot in 0..day.counts.slots {
        narrow_slot(day, figures, from, rooms, slot, domains);
    }
}
