// What a list of a record may hold: bytes, words, draws and rows, each with the way it stands there; and
// entries of any other type, as a caller has them read.
ghost use Rattle.std.specs.Prelude.{◌≡◌, ℕ, List, slice_index};
ghost use Rattle.test_cases.specs.steps.Numbers.{word_at, draw_at, number_at};

use super::{byte, number, plus, word};

// An entry of a list, as it is read from a place of a record on.
pub trait Entry: Copy + PartialEq {
    ghost stands_at: { List ℕ → ℕ → Self };

    fn at(bytes: &[u8], at: usize) -> Self
        ensures { result ≡ stands_at bytes.now at };
}

// How an entry of any type is read from a place of a record on, by a value that a caller lends and that may
// hold more than the record. No closure: one is called only under a `requires`. src/tests.rt lends one so.
pub trait Reading<T> {
    ghost MayRead: { Self → List ℕ → ℕ → T → Type 0 };

    fn read(&self, bytes: &[u8], at: usize) -> T
        ensures { MayRead self.now bytes.now at result };
}

// A byte.
impl Entry for u8 {
    ghost stands_at = { λ bytes at. slice_index bytes at };

    fn at(bytes: &[u8], at: usize) -> u8 {
        byte(bytes, at)
    }
}

// A word, of two bytes.
impl Entry for u16 {
    ghost stands_at = { word_at };

    fn at(bytes: &[u8], at: usize) -> u16 {
        word(bytes, at)
    }
}

// A draw, of four bytes.
impl Entry for u32 {
    ghost stands_at = { draw_at };

    fn at(bytes: &[u8], at: usize) -> u32 {
        u32::from(word(bytes, at)) * 65_536 + u32::from(word(bytes, plus(at, 2)))
    }
}

// A row, of eight bytes.
impl Entry for u64 {
    ghost stands_at = { number_at };

    fn at(bytes: &[u8], at: usize) -> u64 {
        number(bytes, at)
    }
}
