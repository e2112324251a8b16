// A row: kind, left, right, extra. In a pool it is one number, and the order of the numbers is 01's order of
// the rows.
ghost use Rattle.std.specs.Prelude.{◌≡◌};
ghost use Rattle.day_rows.specs.Row.{row_of, row_number, plain_row};

use super::number::{Choice, Chooser, Slot};

// A row by its columns. The extra column is kept 32,768 higher than 01's signed number, so that it needs no
// sign.
#[derive(Clone, Copy, PartialEq, Eq)]
pub struct Row {
    pub kind: u16,
    pub left: u16,
    pub right: u16,
    pub extra: u16,
}

// The row that a number of a pool stands for: each number is one row.
impl From<u64> for Row {
    ghost from_gives = { λ number row. row ≡ row_of number };

    fn from(number: u64) -> Row {
        Row {
            kind: (number / 0x1_0000_0000_0000) as u16,
            left: (number / 0x1_0000_0000 % 0x1_0000) as u16,
            right: (number / 0x1_0000 % 0x1_0000) as u16,
            extra: (number % 0x1_0000) as u16,
        }
    }
}

// The row's number in a pool.
impl From<Row> for u64 {
    ghost from_gives = { λ row number. number ≡ row_number row };

    fn from(row: Row) -> u64 {
        (row.kind as u64) * 0x1_0000_0000_0000
            + (row.left as u64) * 0x1_0000_0000
            + (row.right as u64) * 0x1_0000
            + (row.extra as u64)
    }
}

impl Row {
    // The extra column of a row that has none: 'Extra is 0 elsewhere'.
    pub const NO_EXTRA: u16 = 32_768;

    // The kind of a number's row. Each column has its function for callers that look at one column alone.
    pub fn kind_of(number: u64) -> u16
        ensures { result ≡ (row_of number).kind }
    {
        Row::from(number).kind
    }

    // The left column of a number's row.
    pub fn left_of(number: u64) -> u16
        ensures { result ≡ (row_of number).left }
    {
        Row::from(number).left
    }

    // The right column of a number's row.
    pub fn right_of(number: u64) -> u16
        ensures { result ≡ (row_of number).right }
    {
        Row::from(number).right
    }

    // The extra column of a number's row, 32,768 higher as the row keeps it.
    pub fn extra_of(number: u64) -> u16
        ensures { result ≡ (row_of number).extra }
    {
        Row::from(number).extra
    }

    // The constructors are one for each pair of numbers, and none for any two: 'A choice number, a slot number
    // and a chooser number are kept apart', so that exchanged ends don't compile.

    // A row of kind 1 or 2: a choice and a slot.
    pub fn choice_slot(kind: u16, choice: Choice, slot: Slot) -> Row
        ensures { result ≡ plain_row kind choice.0 slot.0 }
    {
        Row {
            kind,
            left: choice.0,
            right: slot.0,
            extra: Row::NO_EXTRA,
        }
    }

    // A row of kind 3, 4 or 10: two choices.
    pub fn choice_choice(kind: u16, left: Choice, right: Choice) -> Row
        ensures { result ≡ plain_row kind left.0 right.0 }
    {
        Row {
            kind,
            left: left.0,
            right: right.0,
            extra: Row::NO_EXTRA,
        }
    }

    // A row of kind 11 or 12: a chooser and a choice.
    pub fn chooser_choice(kind: u16, chooser: Chooser, choice: Choice) -> Row
        ensures { result ≡ plain_row kind chooser.0 choice.0 }
    {
        Row {
            kind,
            left: chooser.0,
            right: choice.0,
            extra: Row::NO_EXTRA,
        }
    }
}
