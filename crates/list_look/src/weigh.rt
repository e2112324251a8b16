// What tables and counts leave of the domains at a start, by one taking of its figures.
ghost use Rattle.std.specs.Prelude.{◌≡◌};
ghost use Rattle.plan_check.specs.Day.{day_lent};
ghost use Rattle.list_look.specs.steps.Look.{limits_leave, weighed};

use list_rule_counts::bounds::{bounds_of, has_limit};
use list_rule_counts::rule::narrow_by_counts;
use list_rule_tables::figures::{Figures, free_of, lacks_of};
use list_rule_tables::rule::narrow_by_tables;
use list_tables::shape::TABLES;
use plan_check::day::Day;

// What tables and counts leave of the domains where there are limits: a slot whose least count is one that it
// can't have ends the start, and what the slots want weighs in the tables.
fn narrow_by_limits(day: &Day, figures: &Figures, domains: &mut [u64; 64])
    ensures { let day = day_lent day.now in
        let given = figures.now in
        let left = limits_leave day.counts day.maxs day.rows given.tables.now given.free
        given.lacks.now domains.old in
        domains.new ≡ left }
{
    let bounds = bounds_of(day, figures, domains);
    if bounds.broken {
        *domains = [0u64; 64];
        return;
    }
    narrow_by_tables(day, figures, &bounds.wants, domains);
    narrow_by_counts(day, figures, &bounds, domains);
}

// What tables and counts leave of the domains; without a limit tables alone, since then no slot wants more
// choices than its sums say.
pub(crate) fn weigh(day: &Day, tables: &[u16; TABLES], domains: &mut [u64; 64])
    ensures { let day = day_lent day.now in
        domains.new ≡ weighed day.counts day.maxs day.rows tables.now domains.old }
{
    let free = free_of(day.counts.choices, domains);
    let lacks = lacks_of(day, domains);
    let figures = Figures {
        tables,
        free,
        lacks: &lacks,
    };
    if has_limit(day.rows) {
        narrow_by_limits(day, &figures, domains);
        return;
    }
    let none = [0usize; 24];
    narrow_by_tables(day, &figures, &none, domains);
}
