// What records of days share: the counts at their front, and how they write a refusal.
ghost use Rattle.std.specs.Prelude.{◌≡◌, ◌↔◌, IsTrue};
ghost use Rattle.test_cases.specs.steps.Records.{counts_at_front, told_of, told_number, refusal_at};

use super::{byte, plus, word};
use day_rows::check::Counts;
use day_rows::refusal::Refusal;

// C, S and H, a byte each, and the number of rows, at a record's front.
pub fn counts_at_front(bytes: &[u8]) -> Counts
    ensures { result ≡ counts_at_front bytes.now }
{
    Counts {
        choices: usize::from(byte(bytes, 0)),
        slots: usize::from(byte(bytes, 1)),
        choosers: usize::from(byte(bytes, 2)),
        rows: usize::from(word(bytes, 3)),
    }
}

// A refusal as a record tells it: 01's number, and the row that it carries, 0 where it carries none.
#[derive(Clone, Copy, PartialEq, Eq)]
pub struct Told {
    pub number: u8,
    pub row: u64,
}

// A refusal by what records tell of it.
pub fn told_of(why: Refusal) -> Told
    ensures { result ≡ told_of why }
{
    let row = match why {
        Refusal::Row(row) => row as u64,
        _ => 0,
    };
    Told {
        number: u8::from(why),
        row,
    }
}

// The number of a refusal whose byte is 100 more, apart from an answer's other bytes.
pub fn told_number(written: u8) -> u8
    ensures { result ≡ told_number written }
{
    written.wrapping_sub(100)
}

// Whether a refusal stands at a place: its number with 100 more, and the row in two bytes.
pub fn is_refusal(bytes: &[u8], at: usize, why: Refusal) -> bool
    ensures { IsTrue result ↔ (told_of why ≡ refusal_at bytes.now at) }
{
    let told = Told {
        number: told_number(byte(bytes, at)),
        row: u64::from(word(bytes, plus(at, 1))),
    };
    told_of(why) == told
}
