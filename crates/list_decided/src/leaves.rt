// What the rows that are decided with the next choice leave of its places: those at which the plan check's
// sentence holds.
ghost use Rattle.std.specs.Prelude.{◌≡◌, ◌≤◌, take};
ghost use Rattle.day_rows.specs.Row.{row_of};
ghost use Rattle.list_decided.specs.steps.Leaves.{other_place, beside_place, apart_from, facing, by_offset, row_leaves, rows_leave};

use day_rows::kind::Kind;
use day_rows::row::Row;
use list_domains::places::{kept, place_number};
use plan_check::plan::slot_of;

// Where the other choice of a row stands.
fn other_place(choice: usize, plan: &[u8], number: u64) -> u8
    ensures { result ≡ other_place choice plan.now (row_of number) }
{
    let left = Row::left_of(number);
    if left as usize == choice {
        return slot_of(plan, Row::right_of(number));
    }
    slot_of(plan, left)
}

// What a row of kind 3 leaves of the choice's places: the place of the other choice alone.
fn beside(slots: usize, place: usize, domain: u64) -> u64
    ensures { result ≡ beside_place slots place domain }
{
    kept(domain, place_number(slots, place), true, false)
}

// What a row of kind 4 leaves of the choice's places: any place but the other choice's slot.
fn apart_from(slots: usize, place: usize, domain: u64) -> u64
    ensures { result ≡ apart_from slots place domain }
{
    if slots <= place {
        return domain;
    }
    kept(domain, place, false, true)
}

// Of a domain the slot with the number up less down alone, if it is one of the day's.
fn facing_slot(slots: usize, up: usize, down: usize, domain: u64) -> u64
    ensures { result ≡ facing slots up down domain }
{
    if up < down {
        return 0;
    }
    if slots <= up - down {
        return 0;
    }
    kept(domain, up - down, true, false)
}

// What a row of kind 5 leaves of the choice's places: beside an omitted choice omission, else the slot that
// the offset asks for. Extra is the offset plus 32,768.
fn by_offset(slots: usize, is_left: bool, place: u8, extra: u16, domain: u64) -> u64
    ensures { result ≡ by_offset slots is_left place extra domain }
{
    let other = usize::from(place);
    if slots <= other {
        return kept(domain, slots, true, false);
    }
    if is_left {
        return facing_slot(slots, other + 32_768, usize::from(extra), domain);
    }
    facing_slot(slots, other + usize::from(extra), 32_768, domain)
}

// What a number's row leaves of the choice's places, by its kind.
fn row_leaves(slots: usize, choice: usize, plan: &[u8], number: u64, domain: u64) -> u64
    ensures { result ≡ row_leaves slots choice plan.now (row_of number) domain }
{
    let right = Row::right_of(number) as usize;
    let place = other_place(choice, plan, number);
    match Row::kind_of(number) {
        Kind::CHOICE_IS_IN_SLOT => kept(domain, right, true, false),
        Kind::CHOICE_IS_NOT_IN_SLOT => kept(domain, right, false, true),
        Kind::CHOICES_ARE_IN_SAME_SLOT => beside(slots, place as usize, domain),
        Kind::CHOICES_ARE_NOT_IN_SAME_SLOT => apart_from(slots, place as usize, domain),
        Kind::CHOICES_HAVE_OFFSET => by_offset(
            slots,
            Row::left_of(number) as usize == choice,
            place,
            Row::extra_of(number),
            domain,
        ),
        _ => domain,
    }
}

// What the first so many rows leave of the choice's places, one after the other; all rows if there are fewer.
pub fn rows_leave(
    slots: usize,
    choice: usize,
    plan: &[u8],
    rows: &[u64],
    front: usize,
    domain: u64,
) -> u64
    ensures { result ≡ rows_leave slots choice plan.now (take front rows.now) domain }
{
    let mut left = domain;
    for (i, number) in rows.iter().enumerate() {
        if front <= i {
            return left;
        }
        left = row_leaves(slots, choice, plan, *number, left);
    }
    left
}
