// The walk over all plans of a day.
ghost use Rattle.std.specs.Prelude.{◌≡◌, ◌+◌, ◌^◌, ◌<◌, true, length};
ghost use Rattle.plan_check.specs.Day.{day_lent};
ghost use Rattle.list_nodes.specs.steps.Runs.{Judged};
ghost use Rattle.list_nodes.specs.steps.Run.{standing, run, goes_on};
ghost use Rattle.list_walk.specs.steps.Sight.{events_of_day};
ghost use Rattle.list_starts.specs.steps.PageReady.{ready_for, walked_if};

use super::walk::{Given, walk_choice};
use list_look::open::SlotSums;
use list_starts::asked::Asked;
use list_starts::ready::is_ready;
use list_tables::shape::TABLES;
use plan_check::day::Day;

// The walk from the empty start, on a day and a page that are as it asks.
fn walk_ready(
    day: &Day,
    asked: &Asked,
    tables: &[u16; TABLES],
    domains: &[u64; 64],
    turns: &mut u64,
    met: &mut u64,
    buffer: &mut [u8],
) -> bool
    requires { let page = asked.now in
        Judged (day_lent day.now) page.room buffer.old
        × (met.old + turns.old < 2 ^ 64)
        × (goes_on page.first page.room met.old ≡ true) }
    ensures { let page = asked.now in
        let events = events_of_day (day_lent day.now) tables.now domains.now in
        let before = standing true turns.old met.old buffer.old in
        let after = standing result turns.new met.new buffer.new in
        after ≡ run page.first page.room before events }
{
    let choices = day.mins.len();
    let mut plan = [0u8; 64];
    let mut sums = SlotSums {
        mins: [0usize; 24],
        maxs: [0usize; 24],
    };
    let given = Given { asked, tables };
    walk_choice(
        &given,
        day,
        domains,
        0,
        &mut plan[..choices],
        &mut sums,
        turns,
        met,
        buffer,
    )
}

// The walk over all plans of a day, for any day and page: it starts only where the day, the turns and the page
// are as it asks, else it stands still.
pub fn walk_all(
    day: &Day,
    asked: &Asked,
    tables: &[u16; TABLES],
    domains: &[u64; 64],
    turns: &mut u64,
    met: &mut u64,
    buffer: &mut [u8],
) -> bool
    ensures { let day = day_lent day.now in
        let first = asked.now.first in
        let room = asked.now.room in
        let ready = ready_for day first room turns.old met.old (length buffer.old) in
        let events = events_of_day day tables.now domains.now in
        let after = standing result turns.new met.new buffer.new in
        after ≡ walked_if ready first room turns.old met.old buffer.old events }
{
    if !is_ready(day, asked, *turns, *met, buffer.len()) {
        return false;
    }
    walk_ready(day, asked, tables, domains, turns, met, buffer)
}
