// Module 3's sentences, one function each: what a row of kinds 1 to 6 asks of a plan's bytes. None of them
// counts: kind 6's is given the slot's count of choices, and `rows` says which row asks which sentence.
ghost use Rattle.std.specs.Prelude.{◌≡◌, eqb};
ghost use Rattle.day_rows.specs.Row.{row_of};
ghost use Rattle.plan_check.specs.Plan.{slot_of};
ghost use Rattle.plan_check.specs.Rows.{slots_differ, offset_kept, op_holds};

use super::plan::{OMITTED, slot_of};
use day_rows::op::Op;
use day_rows::row::Row;

// Kind 6's comparison: a slot's count of choices against the limit, by the op.
pub fn op_holds(op: u16, count: u32, limit: u16) -> bool
    ensures { result ≡ op_holds op count limit }
{
    match op {
        Op::EQ => count == limit as u32,
        Op::NEQ => count != limit as u32,
        Op::GT => count > limit as u32,
        Op::LT => count < limit as u32,
        Op::GEQ => count >= limit as u32,
        Op::LEQ => count <= limit as u32,
        _ => false,
    }
}

// Kinds 1 and 2: whether the row's choice stands in its slot. The slot is read on each of the two ways, so
// that they stay two and no byte is joined with 255.
pub fn in_slot(plan: &[u8], number: u64) -> bool
    ensures { result ≡ eqb (slot_of plan.now (row_of number).left) (row_of number).right }
{
    let at = Row::left_of(number) as usize;
    if plan.len() <= at {
        return OMITTED as u16 == Row::right_of(number);
    }
    plan[at] as u16 == Row::right_of(number)
}

// Kind 3: whether two choices have one byte. Each choice past the plan's end has a way of its own, so that no
// byte is joined with 255.
pub fn same_slot(plan: &[u8], left: u16, right: u16) -> bool
    ensures { result ≡ eqb (slot_of plan.now left) (slot_of plan.now right) }
{
    let from = left as usize;
    if plan.len() <= from {
        return OMITTED == slot_of(plan, right);
    }
    let to = right as usize;
    if plan.len() <= to {
        return plan[from] == OMITTED;
    }
    plan[from] == plan[to]
}

// Kind 4: whether two choices share no slot; two omitted ones share none, so they pass.
pub fn slots_differ(plan: &[u8], left: u16, right: u16) -> bool
    ensures { result ≡ slots_differ plan.now left right }
{
    let place = slot_of(plan, left);
    if place == OMITTED {
        return true;
    }
    place != slot_of(plan, right)
}

// Kind 5: whether two choices are as far apart as the offset says. It is kept 32,768 higher, so both sides
// are compared that much higher and need no sign.
pub fn keeps_offset(plan: &[u8], left: u16, right: u16, extra: u16) -> bool
    ensures { result ≡ offset_kept plan.now left right extra }
{
    let from = slot_of(plan, left);
    let to = slot_of(plan, right);
    if from == OMITTED {
        return to == OMITTED;
    }
    if to == OMITTED {
        return false;
    }
    to as u32 + 32_768 == from as u32 + extra as u32
}
