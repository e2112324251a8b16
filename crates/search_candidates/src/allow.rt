// Whether the rows allow a place for a choice, beside what is decided.
ghost use Rattle.std.specs.Prelude.{◌≡◌};
ghost use Rattle.day_rows.specs.Row.{row_of};
ghost use Rattle.search_candidates.specs.Loads.{size_of};
ghost use Rattle.search_candidates.specs.Allow.{row_allows, each_allows, rows_allow};
ghost use Rattle.search_candidates.specs.Bucket.{asked_lent};

use super::asked::Asked;
use super::ends::pair_allows;
use super::limits::{limits_hold, room_allows};
use day_rows::kind::Kind;
use day_rows::row::Row;

// Whether a number's row allows the place. Kinds 3 to 5 share an arm: called at one place alone, the pair's
// test is inlined.
fn row_allows(asked: &Asked, place: u8, number: u64) -> bool
    ensures { let asked = asked_lent asked.now in
        result ≡ row_allows asked.loads.decisions (size_of asked.loads)
        asked.depth.choice place (row_of number) }
{
    match Row::kind_of(number) {
        Kind::CHOICE_IS_IN_SLOT => place as u16 == Row::right_of(number),
        Kind::CHOICE_IS_NOT_IN_SLOT => place as u16 != Row::right_of(number),
        Kind::CHOICES_ARE_IN_SAME_SLOT
        | Kind::CHOICES_ARE_NOT_IN_SAME_SLOT
        | Kind::CHOICES_HAVE_OFFSET => {
            pair_allows(asked.loads.decisions, asked.depth.choice, place, number)
        }
        Kind::SLOT_HAS_LIMITED_SIZE => room_allows(asked.loads.sizes, place, number),
        _ => false,
    }
}

// Whether every row that the numbers name allows the place; a number past the rows names none that does.
fn each_allows(asked: &Asked, place: u8) -> bool
    ensures { let asked = asked_lent asked.now in
        result ≡ each_allows asked.rows asked.numbers
        asked.loads.decisions (size_of asked.loads) asked.depth.choice place }
{
    let rows = asked.rows;
    for number in asked.numbers {
        let at = *number as usize;
        if rows.len() <= at {
            return false;
        }
        if !row_allows(asked, place, rows[at]) {
            return false;
        }
    }
    true
}

// Whether the rows allow the place: those that the numbers name and, for the last undecided choice, every
// limit of the list.
pub fn rows_allow(asked: &Asked, place: u8) -> bool
    ensures { let asked = asked_lent asked.now in
        result ≡ rows_allow asked.rows asked.numbers
        asked.loads.decisions (size_of asked.loads) asked.depth.last asked.depth.choice place }
{
    if !each_allows(asked, place) {
        return false;
    }
    if !asked.depth.last {
        return true;
    }
    limits_hold(asked.rows, asked.loads.sizes, place)
}
