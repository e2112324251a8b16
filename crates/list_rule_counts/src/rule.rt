// What the counts leave of the free choices' domains.
ghost use Rattle.std.specs.Prelude.{◌≡◌, ◌<◌};
ghost use Rattle.plan_check.specs.Day.{day_lent};
ghost use Rattle.list_rule_counts.specs.steps.Lent.{counts_leave};

use super::bounds::Bounds;
use super::rooms::narrow_by_rooms;
use super::wants::narrow_by_wants;
use list_rule_tables::figures::{Figures, first_in};
use plan_check::day::Day;

// Narrows the domains by how many free choices each slot has at least and fewer than how many; of a day that
// the tables don't hold they stay as they are.
pub fn narrow_by_counts(day: &Day, figures: &Figures, bounds: &Bounds, domains: &mut [u64; 64])
    ensures { let day = day_lent day.now in
        domains.new ≡ counts_leave figures.now bounds.now day.counts day.maxs domains.old }
{
    let counts = day.counts;
    if 64 < counts.choices {
        return;
    }
    if 200 < counts.choosers {
        return;
    }
    if day.maxs.len() != counts.choices {
        return;
    }
    if 24 < counts.slots {
        return;
    }
    let from = first_in(counts.choices, figures.free);
    narrow_by_rooms(day, figures, from, &bounds.rooms, domains);
    narrow_by_wants(counts, figures.free, &bounds.wants, domains);
}
