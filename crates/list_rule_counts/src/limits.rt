// '6: count of choices in the slot against the limit': what limits make of the least counts, and of the first
// counts that the slots can't have.
ghost use Rattle.std.specs.Prelude.{◌≡◌, cond, suc, ◌+◌, ◌≤◌, ◌<◌, max, min, eqb};
ghost use Rattle.day_rows.specs.Row.{row_of};
ghost use Rattle.list_rule_counts.specs.steps.CountRule.{raised_by, lowered_by, limit_changes, limits_change};

use day_rows::kind::Kind;
use day_rows::op::Op;
use day_rows::row::Row;

// The least count that is not the limit: the count itself, or the next one.
fn other_than(count: usize, limit: usize) -> usize
    requires { limit ≤ 65535 }
    ensures { result ≡ cond (eqb count limit) (suc count) count }
{
    if count != limit {
        return count;
    }
    count + 1
}

// The first count past a limit.
fn past(limit: usize) -> usize
    requires { limit ≤ 65535 }
    ensures { result ≡ limit + 1 }
{
    limit + 1
}

// What a limit makes of the least count of its slot, by the op.
fn raised(op: u16, limit: usize, count: usize) -> usize
    requires { limit ≤ 65535 }
    ensures { result ≡ raised_by op limit count }
{
    match op {
        Op::EQ => count.max(limit),
        Op::GEQ => count.max(limit),
        Op::GT => count.max(past(limit)),
        Op::NEQ => other_than(count, limit),
        _ => count,
    }
}

// What a limit makes of the first count that its slot can't have, by the op.
fn lowered(op: u16, limit: usize, under: usize) -> usize
    requires { limit ≤ 65535 }
    ensures { result ≡ lowered_by op limit under }
{
    match op {
        Op::EQ => under.min(past(limit)),
        Op::LEQ => under.min(past(limit)),
        Op::LT => under.min(limit),
        _ => under,
    }
}

// A number's row changes the two counts of its slot if it is a limit.
fn limit_by_row(number: u64, least: &mut [usize; 24], under: &mut [usize; 24])
    ensures least_after { least.new ≡ limit_changes raised_by (row_of number) least.old }
    ensures under_after { under.new ≡ limit_changes lowered_by (row_of number) under.old }
{
    if Row::kind_of(number) != Kind::SLOT_HAS_LIMITED_SIZE {
        return;
    }
    let slot = Row::left_of(number) as usize;
    if 24 <= slot {
        return;
    }
    let op = Row::extra_of(number);
    let limit = usize::from(Row::right_of(number));
    least[slot] = raised(op, limit, least[slot]);
    under[slot] = lowered(op, limit, under[slot]);
}

// Changes the two counts of each slot by the rows in order.
pub(crate) fn limit_by_rows(rows: &[u64], least: &mut [usize; 24], under: &mut [usize; 24])
    ensures least_after { least.new ≡ limits_change raised_by rows.now least.old }
    ensures under_after { under.new ≡ limits_change lowered_by rows.now under.old }
{
    for number in rows {
        limit_by_row(*number, least, under);
    }
}
