// Cases whose answer is a whole text: the records of the two programs' replays.
use super::{is_filled, plus, same, word};

// The four bytes from a place on, high byte first.
pub fn length_at(bytes: &[u8], at: usize) -> usize {
    usize::from(word(bytes, at)) * 65_536 + usize::from(word(bytes, plus(at, 2)))
}

// Whether the pool holds the text that stands from a place on with its length before it, and zeros past it.
pub fn text_agrees(bytes: &[u8], at: usize, size: usize, text: &[u8]) -> bool {
    if size != length_at(bytes, at) {
        return false;
    }
    if !same(text, 0, bytes, plus(at, 4), size) {
        return false;
    }
    is_filled(text, size, 0)
}
