// Numbers of two bytes, big-endian, and rows of six, read in a file.
ghost use Rattle.std.specs.Prelude.{◌≡◌, ◌+◌, ◌<◌, length};
ghost use Rattle.day_file.specs.File.{word_at, sign_bit_flipped, row_at};

use super::file_words::word_of;
use day_rows::row::Row;

// The length of the longest file: every count at its limit.
pub const LONGEST_FILE: usize = 26_827;

// The number that stands in the two bytes from a place on.
pub(crate) fn word_at(file: &[u8], at: usize) -> u16
    requires { at + 1 < length file.now }
    ensures { result ≡ word_at file.now at }
{
    word_of(file[at], file[at + 1])
}

// An extra column from two's complement, as a file has it, to 32,768 higher, as a row keeps it; and the same
// back.
pub fn flip_sign_bit(v: u16) -> u16
    ensures { result ≡ sign_bit_flipped v }
{
    if v < 32768 {
        return v + 32768;
    }
    v - 32768
}

// The number of the row that stands in the six bytes from a place on.
pub(crate) fn row_at(file: &[u8], at: usize) -> u64
    requires { at + 5 < length file.now }
    ensures { result ≡ row_at file.now at }
{
    let row = Row {
        kind: u16::from(file[at]),
        left: u16::from(file[at + 1]),
        right: word_at(file, at + 2),
        extra: flip_sign_bit(word_at(file, at + 4)),
    };
    u64::from(row)
}
