// The rows that limit a slot's size, kind 6: the room that is left for a choice, and the full test.
ghost use Rattle.std.specs.Prelude.{◌≡◌, ◌+◌, get_or};
ghost use Rattle.day_rows.specs.Row.{row_of};
ghost use Rattle.plan_check.specs.Rows.{op_holds};
ghost use Rattle.search_candidates.specs.Allow.{room_for, room_allows, limit_holds, limits_hold};

use super::loads::load;
use day_rows::kind::Kind;
use day_rows::op::Op;
use day_rows::row::Row;
use plan_check::sentences::op_holds;

// Whether a limit has room for one more: 'ops Eq, Leq, Lt only, as count + 1 <= limit (Lt: limit - 1)'. Lt
// needs one more, which is added at 64 bits.
fn room_for(op: u16, count: u32, limit: u16) -> bool
    ensures { result ≡ room_for op count limit }
{
    match op {
        Op::EQ => count < limit as u32,
        Op::LEQ => count < limit as u32,
        Op::LT => count as u64 + 1 < limit as u64,
        _ => true,
    }
}

// Whether a number's row has room for a choice where its slot is tried.
pub(crate) fn room_allows(sizes: &[u32], place: u8, number: u64) -> bool
    ensures { result ≡ room_allows (λ slot. get_or sizes.now slot 0) place (row_of number) }
{
    let slot = Row::left_of(number);
    if place as u16 != slot {
        return true;
    }
    room_for(
        Row::extra_of(number),
        load(sizes, slot as usize),
        Row::right_of(number),
    )
}

// Whether the op's comparison holds with one choice more; a count that one more would wrap is past every
// limit without it.
fn holds_with_one_more(op: u16, count: u32, limit: u16) -> bool
    ensures { result ≡ op_holds op (count + 1) limit }
{
    if count == 0xFFFF_FFFF {
        return op_holds(op, count, limit);
    }
    op_holds(op, count + 1, limit)
}

// Whether the count that a number's row limits fits it, with this choice in the tried place.
fn limit_holds(sizes: &[u32], place: u8, number: u64) -> bool
    ensures { result ≡ limit_holds (λ slot. get_or sizes.now slot 0) place (row_of number) }
{
    if Row::kind_of(number) != Kind::SLOT_HAS_LIMITED_SIZE {
        return true;
    }
    let slot = Row::left_of(number);
    let count = load(sizes, slot as usize);
    if place as u16 == slot {
        return holds_with_one_more(Row::extra_of(number), count, Row::right_of(number));
    }
    op_holds(Row::extra_of(number), count, Row::right_of(number))
}

// Whether every limit of the list holds, with this choice in the tried place.
pub(crate) fn limits_hold(rows: &[u64], sizes: &[u32], place: u8) -> bool
    ensures { result ≡ limits_hold rows.now (λ slot. get_or sizes.now slot 0) place }
{
    rows.iter().all(|number| limit_holds(sizes, place, *number))
}
