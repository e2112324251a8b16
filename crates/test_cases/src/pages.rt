// A page of a day's plans held against the whole list.
ghost use Rattle.std.specs.Prelude.{◌≡◌};
ghost use Rattle.test_cases.specs.steps.Pages.{bytes_of, on_page, is_page};

use super::{BLANK, is_filled, same};

// A day's whole list: how many choices a plan has, how many plans and nodes there are, and the plans one after
// another.
#[derive(Clone, Copy)]
pub struct Whole<'a> {
    pub choices: usize,
    pub total: u64,
    pub nodes: u64,
    pub plans: &'a [u8],
}

// How many bytes this many plans take; it wraps where no list reaches.
pub fn bytes_of(whole: &Whole, plans: u64) -> usize
    ensures { result ≡ bytes_of whole.now plans }
{
    whole.choices.wrapping_mul(plans as usize)
}

// How many plans a page from the first number on holds.
fn on_page(total: u64, first: u64, room: u64) -> u64
    ensures { result ≡ on_page total first room }
{
    total.saturating_sub(first).min(room)
}

// Whether so many plans written are the page from the first number on, and the buffer holds them and nothing
// else.
pub fn is_page(whole: &Whole, first: u64, room: u64, written: u64, buffer: &[u8]) -> bool
    ensures { result ≡ is_page whole.now first room written buffer.now }
{
    let at = bytes_of(whole, on_page(whole.total, 0, first));
    let size = bytes_of(whole, written);
    written == on_page(whole.total, first, room)
        && same(buffer, 0, whole.plans, at, size)
        && is_filled(buffer, size, BLANK)
}
