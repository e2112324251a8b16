// A choice's entry of the own map: 'rows of kinds 1 to 5 that have it left, or right in 3 to 5, and all rows
// of kind 6'.
ghost use Rattle.std.specs.Prelude.{◌≡◌, ◌+◌, ◌^◌, ◌≤◌, ◌<◌, length, set};
ghost use Rattle.day_rows.specs.Row.{row_of};
ghost use Rattle.search_map.specs.Map.{names_left, names_right, has_left, has_right, concerns, own_entry};
ghost use Rattle.search_map.specs.steps.Filling.{Wrote, row_if};

use day_rows::kind::Kind;
use day_rows::row::Row;

// Whether a kind has a choice left.
#[tactic(auto, unfolding(crate::specs::Map::names_left))]
fn names_left(kind: u16) -> bool
    ensures { result ≡ names_left kind }
{
    matches!(kind, Kind::CHOICE_IS_IN_SLOT..=Kind::CHOICES_HAVE_OFFSET)
}

// Whether a kind has a choice right.
#[tactic(auto, unfolding(crate::specs::Map::names_right))]
fn names_right(kind: u16) -> bool
    ensures { result ≡ names_right kind }
{
    matches!(
        kind,
        Kind::CHOICES_ARE_IN_SAME_SLOT..=Kind::CHOICES_HAVE_OFFSET
    )
}

// Whether a number's row has the choice left.
fn has_left(choice: usize, number: u64) -> bool
    ensures { result ≡ has_left choice (row_of number) }
{
    if !names_left(Row::kind_of(number)) {
        return false;
    }
    Row::left_of(number) as usize == choice
}

// Whether a number's row has the choice right.
fn has_right(choice: usize, number: u64) -> bool
    ensures { result ≡ has_right choice (row_of number) }
{
    if !names_right(Row::kind_of(number)) {
        return false;
    }
    Row::right_of(number) as usize == choice
}

// Whether a number's row is one of the choice's.
fn is_concerned(choice: usize, number: u64) -> bool
    ensures { result ≡ concerns choice (row_of number) }
{
    if Row::kind_of(number) == Kind::SLOT_HAS_LIMITED_SIZE {
        return true;
    }
    if has_left(choice, number) {
        return true;
    }
    has_right(choice, number)
}

// A row's number written at a place of the pool; where the pool has no such place, the caller's count alone
// goes on.
fn put(numbers: &mut [u16], at: usize, row: u16)
    ensures { numbers.new ≡ set numbers.old at row }
{
    if at >= numbers.len() {
        return;
    }
    numbers[at] = row;
}

// The row's number written at a place of the pool, if the row is one of the choice's; the answer is the place
// after what is written.
fn add_row(choice: usize, row: usize, number: u64, numbers: &mut [u16], at: usize) -> usize
    requires { (row < 2 ^ 16) × (at < 2 ^ 32) }
    ensures { let written = row_if (concerns choice (row_of number)) row in
        Wrote numbers.old at written result numbers.new }
{
    if !is_concerned(choice, number) {
        return at;
    }
    put(numbers, at, row as u16);
    at + 1
}

// The choice's entry written, 'in list order', from a place of the pool on; the answer is the place after the
// entry.
pub(crate) fn add_entry(choice: usize, rows: &[u64], numbers: &mut [u16], from: usize) -> usize
    requires { (length rows.now ≤ 1024) × (from ≤ 65536) }
    ensures { Wrote numbers.old from (own_entry rows.now choice) result numbers.new }
{
    let mut at = from;
    for (i, number) in rows.iter().enumerate() {
        at = add_row(choice, i, *number, numbers, at);
    }
    at
}
