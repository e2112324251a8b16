// The slots that rows tell from others.
ghost use Rattle.std.specs.Prelude.{◌≡◌, true, ◌||◌, ◌≤◌, eqb, ltb, length, take};
ghost use Rattle.day_rows.specs.Row.{row_of};
ghost use Rattle.base_choice_sets.specs.Sets.{set_of};
ghost use Rattle.list_domains.specs.steps.Domains.{only_place};
ghost use Rattle.plan_check.specs.Plan.{slot_of};
ghost use Rattle.list_twins.specs.steps.Twins.{offset_names, row_names, named};
ghost use Rattle.list_twins.specs.steps.Alike.{either_of, asked_of};

use day_rows::kind::Kind;
use day_rows::row::Row;
use list_domains::places::only;
use plan_check::plan::{OMITTED, slot_of};

// The slots of either of two sets.
fn either(one: u64, other: u64) -> u64
    ensures { result ≡ either_of one other }
{
    one | other
}

// The set of every slot.
fn every() -> u64
    ensures { result ≡ set_of 64 (λ slot. true) }
{
    u64::MAX
}

// Whether a choice has its place: it comes before the first that has none.
fn has_place(choice: usize, plan: &[u8], of: u16) -> bool
    ensures { result ≡ ltb of (length (take choice plan.now)) }
{
    let at = of as usize;
    if choice <= at {
        return false;
    }
    at < plan.len()
}

// Where a choice stands, 255 if it has no place yet: what the plan says of later choices is stale.
fn place_of(choice: usize, plan: &[u8], of: u16) -> u8
    ensures { result ≡ slot_of (take choice plan.now) of }
{
    let at = of as usize;
    if choice <= at {
        return OMITTED;
    }
    slot_of(plan, of)
}

// The slot that is so much higher and so much lower than a place, none of an omitted one.
fn asked_of(place: u8, up: u16, down: u16) -> u64
    ensures { result ≡ asked_of place up down }
{
    if place == OMITTED {
        return 0;
    }
    let high = usize::from(place) + usize::from(up);
    let low = usize::from(down);
    if high < low {
        return 0;
    }
    only(high - low)
}

// Kinds 3 and 4 name the slots where those of the row's two choices stand that have their places.
fn of_places(choice: usize, plan: &[u8], number: u64) -> u64
    ensures { let start = take choice plan.now in
        let left = slot_of start (row_of number).left in
        let right = slot_of start (row_of number).right in
        result ≡ set_of 64 (λ slot. eqb left slot || eqb right slot) }
{
    let left = place_of(choice, plan, Row::left_of(number));
    let right = place_of(choice, plan, Row::right_of(number));
    either(only(left as usize), only(right as usize))
}

// Kind 5 names the slot that the choice that has its place asks of the other; every slot if neither has one.
fn of_offset(choice: usize, plan: &[u8], number: u64) -> u64
    ensures { result ≡ set_of 64 (offset_names (take choice plan.now) (row_of number)) }
{
    let left = Row::left_of(number);
    let right = Row::right_of(number);
    let extra = Row::extra_of(number);
    if has_place(choice, plan, left) {
        return asked_of(place_of(choice, plan, left), extra, 32_768);
    }
    if has_place(choice, plan, right) {
        return asked_of(place_of(choice, plan, right), 32_768, extra);
    }
    every()
}

// Kind 6 names the slot that the limit is for.
fn of_limit(slot: usize) -> u64
    ensures { result ≡ only_place slot }
{
    only(slot)
}

// The slots that a number's row tells from others, by its kind.
fn names_of(choice: usize, plan: &[u8], number: u64) -> u64
    ensures { result ≡ set_of 64 (row_names (take choice plan.now) (row_of number)) }
{
    match Row::kind_of(number) {
        Kind::CHOICE_IS_IN_SLOT => only(Row::right_of(number) as usize),
        Kind::CHOICE_IS_NOT_IN_SLOT => only(Row::right_of(number) as usize),
        Kind::CHOICES_ARE_IN_SAME_SLOT => of_places(choice, plan, number),
        Kind::CHOICES_ARE_NOT_IN_SAME_SLOT => of_places(choice, plan, number),
        Kind::CHOICES_HAVE_OFFSET => of_offset(choice, plan, number),
        Kind::SLOT_HAS_LIMITED_SIZE => of_limit(Row::left_of(number) as usize),
        _ => 0,
    }
}

// The slots that some row tells from others.
pub(crate) fn named_slots(rows: &[u64], choice: usize, plan: &[u8]) -> u64
    ensures { result ≡ set_of 64 (named (take choice plan.now) rows.now) }
{
    let mut names = 0;
    for number in rows {
        names = either(names, names_of(choice, plan, *number));
    }
    names
}
