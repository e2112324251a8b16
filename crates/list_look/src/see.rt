// What the walk sees at a start: whether it looks ahead, and the places that are open to the next choice.
ghost use Rattle.std.specs.Prelude.{◌≡◌, get_or, take};
ghost use Rattle.plan_check.specs.Day.{day_lent};
ghost use Rattle.list_look.specs.steps.Look.{near_end, opened_at};

use super::open::{SlotSums, open_places};
use list_decided::leaves::rows_leave;
use list_tables::shape::TABLES;
use plan_check::day::Day;

// Whether the walk looks ahead no more: eight choices or fewer are left.
pub fn near_end(choices: usize, choice: usize) -> bool
    ensures { result ≡ near_end choices choice }
{
    choices.saturating_sub(choice) <= 8
}

// A choice's domain, no place of one past the list.
fn domain_of(domains: &[u64], choice: usize) -> u64
    ensures { result ≡ get_or domains.now choice 0 }
{
    if domains.len() <= choice {
        return 0;
    }
    domains[choice]
}

// The places that are open to the next choice: the first so many rows leave them, and so do the slots' sums.
pub fn open_to(
    day: &Day,
    tables: &[u16; TABLES],
    choice: usize,
    front: usize,
    plan: &[u8],
    sums: &SlotSums,
    domains: &[u64; 64],
) -> u64
    ensures { let day = day_lent day.now in
        let decided = take front day.rows in
        let domain = get_or domains.now choice 0 in
        result ≡ opened_at day.counts day.mins day.maxs day.optional decided tables.now plan.now choice
        sums.now.mins sums.now.maxs domain }
{
    let domain = domain_of(domains, choice);
    let left = rows_leave(day.counts.slots, choice, plan, day.rows, front, domain);
    open_places(day, tables, choice, sums, left)
}
