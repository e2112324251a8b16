// The choice with which a row is decided: the later of those that it names.
ghost use Rattle.std.specs.Prelude.{◌≡◌, ◌≤◌, length};
ghost use Rattle.day_rows.specs.Row.{row_of};
ghost use Rattle.list_decided.specs.steps.Decided.{with_slot, later_choice, last_of, front_of};

use day_rows::kind::Kind;
use day_rows::row::Row;

// No choice: whole plans alone decide the row.
const NEVER: usize = 65_536;

// The choice with which a row of kind 1 or 2 is decided: its own, if the row names a slot of the day.
fn with_slot(slots: usize, choice: usize, slot: usize) -> usize
    ensures { result ≡ with_slot slots choice slot }
{
    if slots <= slot {
        return NEVER;
    }
    choice
}

// The choice with which a row of kind 3, 4 or 5 is decided: the later of its two; none if they are one.
fn later_of(left: usize, right: usize) -> usize
    ensures { result ≡ later_choice left right }
{
    if left == right {
        return NEVER;
    }
    left.max(right)
}

// The choice with which a number's row is decided, by its kind.
pub fn last_of(slots: usize, number: u64) -> usize
    ensures { result ≡ last_of slots (row_of number) }
{
    let left = Row::left_of(number) as usize;
    let right = Row::right_of(number) as usize;
    match Row::kind_of(number) {
        Kind::CHOICE_IS_IN_SLOT => with_slot(slots, left, right),
        Kind::CHOICE_IS_NOT_IN_SLOT => with_slot(slots, left, right),
        Kind::CHOICES_ARE_IN_SAME_SLOT => later_of(left, right),
        Kind::CHOICES_ARE_NOT_IN_SAME_SLOT => later_of(left, right),
        Kind::CHOICES_HAVE_OFFSET => later_of(left, right),
        _ => NEVER,
    }
}

// How many rows at the front of a list are decided with the choice.
pub fn front_of(slots: usize, choice: usize, rows: &[u64]) -> usize
    ensures { (result ≡ front_of slots choice rows.now) × (result ≤ length rows.now) }
{
    for (front, number) in rows.iter().enumerate() {
        if last_of(slots, *number) != choice {
            return front;
        }
    }
    rows.len()
}
