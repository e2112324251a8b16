// The look ahead: what every rule leaves of the domains at a start.
ghost use Rattle.std.specs.Prelude.{◌≡◌};
ghost use Rattle.plan_check.specs.Day.{day_lent};
ghost use Rattle.list_look.specs.steps.Look.{looked_ahead};

use super::alive::{alive_or, is_alive};
use super::decided::with_decided;
use super::weigh::weigh;
use list_rule_rows::rows::narrow_by_rows;
use list_rule_slots::sums::narrow_by_slots;
use list_tables::shape::TABLES;
use plan_check::day::Day;

// The domains once the choice before this one is decided: every rule takes away what it leaves to no plan. A
// start that tables or counts show to be dead is given up before slots and rows.
#[inline(never)]
pub fn look_ahead(
    day: &Day,
    tables: &[u16; TABLES],
    choice: usize,
    plan: &[u8],
    domains: &[u64; 64],
) -> [u64; 64]
    ensures { let day = day_lent day.now in
        result ≡ looked_ahead day.counts day.mins day.maxs day.rows tables.now plan.now choice domains.now }
{
    let counts = day.counts;
    let mut seen = with_decided(counts.slots, choice, plan, *domains);
    weigh(day, tables, &mut seen);
    if !is_alive(counts.choices, &seen) {
        return [0u64; 64];
    }
    narrow_by_slots(day, &mut seen);
    narrow_by_rows(day, &mut seen);
    alive_or(counts.choices, seen)
}
