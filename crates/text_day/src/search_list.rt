// The search's part of a reduction: its rows of kinds 1 to 6, which stand before the roster's.
ghost use Rattle.std.specs.Prelude.{◌≡◌, ◌&&◌, leb, length};
ghost use Rattle.reduce_turn.specs.Turn.{kind_of};
ghost use Rattle.reduce.specs.Reduction.{search_list};

use day_rows::kind::Kind;
use day_rows::row::Row;

// Whether a row is of kinds 1 to 6.
fn is_searched(number: u64) -> bool
    ensures { result ≡ (leb 1 (kind_of number) && leb (kind_of number) 6) }
{
    let kind = Row::kind_of(number);
    Kind::CHOICE_IS_IN_SLOT <= kind && kind <= Kind::SLOT_HAS_LIMITED_SIZE
}

// How many rows of a reduction are the search's.
pub fn search_count(rows: &[u64]) -> usize
    ensures { result ≡ length (search_list rows.now) }
{
    rows.iter().filter(|row| is_searched(**row)).count()
}
