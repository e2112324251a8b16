// Domains narrowed by every row of a list.
ghost use Rattle.std.specs.Prelude.{◌≡◌};
ghost use Rattle.day_rows.specs.Row.{row_of};
ghost use Rattle.plan_check.specs.Day.{day_lent};
ghost use Rattle.list_rule_rows.specs.steps.RowsRule.{any_rule, rows_rule};

use super::narrow::narrow_by_row;
use day_rows::check::Counts;
use day_rows::kind::Kind;
use day_rows::row::Row;
use list_rule_slots::limits::narrow_by_limit;
use plan_check::day::Day;

// Narrows the domains by a number's row, whatever its kind.
fn narrow_by_any(counts: Counts, number: u64, domains: &mut [u64; 64])
    ensures { domains.new ≡ any_rule counts (row_of number) domains.old }
{
    if Row::kind_of(number) == Kind::SLOT_HAS_LIMITED_SIZE {
        narrow_by_limit(counts, number, domains);
        return;
    }
    narrow_by_row(counts, number, domains);
}

// Narrows the domains by the day's rows in order, each with what those before it left.
pub fn narrow_by_rows(day: &Day, domains: &mut [u64; 64])
    ensures { let day = day_lent day.now in
        domains.new ≡ rows_rule day.counts day.rows domains.old }
{
    let counts = day.counts;
    for number in day.rows {
        narrow_by_any(counts, *number, domains);
    }
}
