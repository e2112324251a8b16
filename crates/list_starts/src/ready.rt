// Whether the walk may start, judged from what it is lent: so the walk itself can be called with any day and
// page.
ghost use Rattle.std.specs.Prelude.{◌≡◌};
ghost use Rattle.plan_check.specs.Day.{day_lent};
ghost use Rattle.list_starts.specs.steps.PageReady.{ready_for};

use super::asked::Asked;
use super::page_end::goes_on;
use day_rows::check::{Takes, counts_in_range};
use list_nodes::judge::buffer_fits;
use plan_check::day::Day;

// Whether the walk may start: counts in range, every lent slice as long as they say, numbers for the plans
// that its turns can meet, and a page that isn't over.
pub fn is_ready(day: &Day, asked: &Asked, turns: u64, met: u64, size: usize) -> bool
    ensures { let first = asked.now.first in
        let room = asked.now.room in
        result ≡ ready_for (day_lent day.now) first room turns met size }
{
    let counts = day.counts;
    if !counts_in_range(counts, Takes::Scheduling) {
        return false;
    }
    if day.mins.len() != counts.choices {
        return false;
    }
    if day.maxs.len() != counts.choices {
        return false;
    }
    if day.optional.len() != counts.choices {
        return false;
    }
    if !buffer_fits(counts.choices, asked.room, size) {
        return false;
    }
    if turns > u64::MAX - met {
        return false;
    }
    goes_on(asked, met)
}
