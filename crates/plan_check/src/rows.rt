// Whether a plan keeps its rows: each row goes, by its kind 1 to 6, to its sentence in `sentences`. Each
// slot's choices are counted before, so that rows of kind 6 find the count of their slot.
ghost use Rattle.std.specs.Prelude.{◌≡◌, length, get_or};
ghost use Rattle.day_rows.specs.Row.{row_of};
ghost use Rattle.plan_check.specs.Rows.{keeps_row, keeps_rows};
ghost use Rattle.plan_check.specs.steps.Sums.{Sizes};

use super::sentences::{in_slot, keeps_offset, op_holds, same_slot, slots_differ};
use day_rows::kind::Kind;
use day_rows::row::Row;

// How many choices stand in a slot, as the pass over the plan counted them; none past the 24 slots.
fn size_of(sizes: &[u32; 24], slot: u16) -> u32
    requires { length sizes.now ≡ 24 }
    ensures { result ≡ get_or sizes.now slot 0 }
{
    sizes.get(usize::from(slot)).copied().unwrap_or(0)
}

// Whether the plan keeps the row that a number stands for; the sizes are the plan's.
pub(crate) fn keeps_row(number: u64, plan: &[u8], sizes: &[u32; 24]) -> bool
    requires { Sizes plan.now sizes.now }
    ensures { result ≡ keeps_row plan.now (row_of number) }
{
    match Row::kind_of(number) {
        Kind::CHOICE_IS_IN_SLOT => in_slot(plan, number),
        Kind::CHOICE_IS_NOT_IN_SLOT => !in_slot(plan, number),
        Kind::CHOICES_ARE_IN_SAME_SLOT => same_slot(
            plan,
            Row::left_of(number),
            Row::right_of(number),
        ),
        Kind::CHOICES_ARE_NOT_IN_SAME_SLOT => slots_differ(
            plan,
            Row::left_of(number),
            Row::right_of(number),
        ),
        Kind::CHOICES_HAVE_OFFSET => keeps_offset(
            plan,
            Row::left_of(number),
            Row::right_of(number),
            Row::extra_of(number),
        ),
        Kind::SLOT_HAS_LIMITED_SIZE => op_holds(
            Row::extra_of(number),
            size_of(sizes, Row::left_of(number)),
            Row::right_of(number),
        ),
        _ => false,
    }
}

// Whether the plan keeps every row, the last row first: a countdown to 0 costs one instruction a row less.
pub(crate) fn keeps_rows(rows: &[u64], plan: &[u8], sizes: &[u32; 24]) -> bool
    requires { Sizes plan.now sizes.now }
    ensures { result ≡ keeps_rows plan.now rows.now }
{
    for left in (0..rows.len()).rev() {
        if !keeps_row(rows[left], plan, sizes) {
            return false;
        }
    }
    true
}
