// The rule of one table, and the four tables one after the other.
ghost use Rattle.std.specs.Prelude.{◌≡◌, cond, ◌+◌, ◌-◌, ◌*◌, ◌≤◌, ◌<◌, max, leb, length, get_or};
ghost use Rattle.base_choice_sets.specs.Sets.{set_of};
ghost use Rattle.list_tables.specs.steps.Tables.{weight_at};
ghost use Rattle.list_domains.specs.steps.Domains.{each_below};
ghost use Rattle.plan_check.specs.Day.{day_lent};
ghost use Rattle.list_rule_tables.specs.steps.Figures.{first_in};
ghost use Rattle.list_rule_tables.specs.steps.Rule.{spare_of};
ghost use Rattle.list_rule_tables.specs.steps.Heaviest.{heaviest_of};
ghost use Rattle.list_rule_tables.specs.steps.Lent.{weighs, needed_by, stays_by, places_by, rule_by, tables_by, tables_leave};

use super::figures::{Figures, first_in};
use super::weighed::{OneTable, Weighed};
use base_choice_sets::set::{member, with_if};
use day_rows::check::Counts;
use list_tables::entry::least_at;
use list_tables::lightest_entry::lightest_at;
use list_tables::shape::TABLES;
use list_tables::weight::weight_at;
use plan_check::day::Day;

// What the free choices that stand in a slot weigh at the least: they fill its
// lack, and are as many as it wants.
fn slot_needs(one: &OneTable, lack: usize, want: usize) -> usize
    ensures { (result ≡ weighs one.now lack want) × (result ≤ 65535) }
{
    let light = lightest_at(one.tables, one.table, one.from, want);
    least_at(one.tables, one.table, one.from, lack).max(light)
}

// What the slots need together.
fn need_of(slots: usize, one: &OneTable) -> usize
    requires { slots ≤ 24 }
    ensures { (result ≡ needed_by one.now slots) × (result ≤ 1572840) }
{
    let mut need = 0;
    for slot in 0..slots {
        need += slot_needs(one, one.lacks[slot], one.wants[slot]);
    }
    need
}

// A free choice's weight in a table, 0 of a choice that isn't free.
fn free_weight(free: bool, tables: &[u16; TABLES], table: usize, choice: usize) -> usize
    ensures { (result ≡ cond free (weight_at tables.now table choice) 0) × (result ≤ 65535) }
{
    if !free {
        return 0;
    }
    weight_at(tables, table, choice)
}

// What the slots need together; what the free choices weigh together and the heaviest of them, from the first
// of them on.
fn weigh(counts: Counts, one: &OneTable, free: u64) -> Weighed
    requires { ((counts.choices ≤ 64) × (counts.slots ≤ 24)) × (one.now.from ≡ first_in counts.choices free) }
    ensures need_value { result.need ≡ needed_by one.now counts.slots }
    ensures spare_value { let weight = weight_at one.now.tables.now in
        result.spare ≡ spare_of counts.choices weight one.now.table free }
    ensures heaviest_value { let weight = weight_at one.now.tables.now in
        result.heaviest ≡ heaviest_of counts.choices weight one.now.table free }
{
    let need = need_of(counts.slots, one);
    let mut spare = 0;
    let mut heaviest = 0;
    for choice in one.from..counts.choices {
        let weight = free_weight(member(free, choice), one.tables, one.table, choice);
        spare += weight;
        heaviest = heaviest.max(weight);
    }
    Weighed {
        need,
        spare,
        heaviest,
    }
}

// Whether a slot of the domain stays: the choice in it, with what the rest of its lack and of its wanted
// choices weigh at the least, leaves enough for the other slots.
fn slot_stays(
    one: &OneTable,
    weighed: &Weighed,
    weight: usize,
    most: usize,
    domain: u64,
    slot: usize,
) -> bool
    requires { (slot < 24) × (weight ≤ 65535) }
    ensures { result ≡ stays_by one.now weighed.now weight most domain slot }
{
    if !member(domain, slot) {
        return false;
    }
    let lack = one.lacks[slot];
    let want = one.wants[slot];
    let rest = slot_needs(one, lack.saturating_sub(most), want.saturating_sub(1));
    let whole = slot_needs(one, lack, want);
    weight + rest + weighed.need <= weighed.spare + whole
}

// What one table's rule leaves of a free choice's domain: all of it, nothing, or the slots that stay.
fn left_of(
    slots: usize,
    one: &OneTable,
    weighed: &Weighed,
    weight: usize,
    most: usize,
    domain: u64,
) -> u64
    requires { (slots ≤ 24) × (weight ≤ 65535) }
    ensures { result ≡ places_by one.now weighed.now slots weight most domain }
{
    let need = weighed.need;
    let spare = weighed.spare;
    if weight + need <= spare {
        return domain;
    }
    if spare < need {
        return 0;
    }
    let mut kept = 0;
    for slot in 0..slots {
        let stays = slot_stays(one, weighed, weight, most, domain, slot);
        kept = with_if(kept, slot, stays);
    }
    kept
}

// One table's rule for one choice: a choice that isn't free keeps its domain.
fn next_domain(
    free: bool,
    slots: usize,
    one: &OneTable,
    weighed: &Weighed,
    choice: usize,
    most: u16,
    domain: u64,
) -> u64
    requires { slots ≤ 24 }
    ensures { let weight = weight_at one.now.tables.now one.now.table choice in
        result ≡ cond free (places_by one.now weighed.now slots weight most domain) domain }
{
    if !free {
        return domain;
    }
    let weight = weight_at(one.tables, one.table, choice);
    left_of(slots, one, weighed, weight, usize::from(most), domain)
}

// Narrows the domains by one table's rule, from the first free choice on; where the slots can do without any
// one choice, no domain changes.
fn narrow_once(day: &Day, one: &OneTable, free: u64, domains: &mut [u64; 64])
    requires { let day = day_lent day.now in
        ((day.counts.choices ≤ 64) × (day.counts.slots ≤ 24))
        × ((length day.maxs ≡ day.counts.choices) × (one.now.from ≡ first_in day.counts.choices free)) }
    ensures { let day = day_lent day.now in
        domains.new ≡ each_below day.counts.choices (rule_by one.now day.counts day.maxs free) domains.old }
{
    let counts = day.counts;
    let maxs = day.maxs;
    let weighed = weigh(counts, one, free);
    if weighed.need + weighed.heaviest <= weighed.spare {
        return;
    }
    for choice in one.from..counts.choices {
        let inside = member(free, choice);
        let most = maxs[choice];
        let domain = domains[choice];
        domains[choice] = next_domain(inside, counts.slots, one, &weighed, choice, most, domain);
    }
}

// Narrows the domains by the four tables, one after the other.
fn narrow_each(
    day: &Day,
    figures: &Figures,
    wants: &[usize; 24],
    from: usize,
    domains: &mut [u64; 64],
)
    requires { let day = day_lent day.now in
        ((day.counts.choices ≤ 64) × (day.counts.slots ≤ 24))
        × ((length day.maxs ≡ day.counts.choices)
        × (from ≡ first_in day.counts.choices figures.now.free)) }
    ensures { let day = day_lent day.now in
        domains.new ≡ tables_by figures.now wants.now day.counts day.maxs from 4 domains.old }
{
    for table in 0..4 {
        let one = OneTable {
            tables: figures.tables,
            table,
            from,
            lacks: figures.lacks,
            wants,
        };
        narrow_once(day, &one, figures.free, domains);
    }
}

// Narrows the domains by the weight tables, given the figures of a start and how many free choices each slot
// wants; of a day that the tables don't hold they stay as they are.
pub fn narrow_by_tables(day: &Day, figures: &Figures, wants: &[usize; 24], domains: &mut [u64; 64])
    ensures { let day = day_lent day.now in
        domains.new ≡ tables_leave figures.now wants.now day.counts day.maxs domains.old }
{
    let counts = day.counts;
    if 64 < counts.choices {
        return;
    }
    if 200 < counts.choosers {
        return;
    }
    if day.maxs.len() != counts.choices {
        return;
    }
    if 24 < counts.slots {
        return;
    }
    let from = first_in(counts.choices, figures.free);
    narrow_each(day, figures, wants, from, domains);
}
