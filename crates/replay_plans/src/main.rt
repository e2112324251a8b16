// Replays whole texts of the program `plans`, whose answers were told from document 01 alone.
#![tactic(auto)]

use day_rows::refusal::Refusal;
use std::io;
use test_cases::replay::{Cases, replay_all};
use test_cases::texts::{length_at, text_agrees};
use test_cases::{BLANK, is_filled, number, word};
use text_plans::text::{LONGEST_TEXT, plans_text};

// The length that marks a case with no text.
const NO_TEXT: usize = 0xffff_ffff;

// Where a record's file begins.
const FILE_AT: usize = 28;

// Whether a refusal is the one told, no text expected: the room's refusal, and the pool as it was.
fn refusal_agrees(bytes: &[u8], at: usize, why: Refusal, text: &[u8]) -> bool {
    if length_at(bytes, at) != NO_TEXT {
        return false;
    }
    if !matches!(why, Refusal::Count) {
        return false;
    }
    is_filled(text, 0, BLANK)
}

// Whether the outcome and the pool are what stands from a place on.
fn told_agrees(bytes: &[u8], at: usize, told: Result<usize, Refusal>, text: &[u8]) -> bool {
    match told {
        Ok(size) => text_agrees(bytes, at, size, text),
        Err(why) => refusal_agrees(bytes, at, why, text),
    }
}

// Whether one case of `plans` is answered as told: the first number, the room and the budget, a file with its
// length before it, then the answer.
fn agrees(bytes: &[u8], text: &mut [u8]) -> bool {
    let size = (word(bytes, 24) as usize) * 65_536 + word(bytes, 26) as usize;
    let end = size + FILE_AT;
    if bytes.len() < end {
        return false;
    }
    text.fill(BLANK);
    let told = plans_text(
        &bytes[FILE_AT..end],
        number(bytes, 0),
        number(bytes, 8),
        number(bytes, 16),
        text,
    );
    told_agrees(bytes, end, told, text)
}

// The texts of a file, of which each record tells one, with the pool in which they are made.
#[derive(Drop)]
struct Texts<'a> {
    pool: &'a mut [u8],
}

impl Cases for Texts<'_> {
    fn agrees(&mut self, record: &[u8]) -> bool {
        agrees(record, self.pool)
    }
}

fn main(rt: HostRuntime) -> io::Result<()> {
    let mut record = [0u8; 65_536];
    let mut text = [BLANK; LONGEST_TEXT];
    let tally = replay_all(&rt, b"cases", &mut record, &mut Texts { pool: &mut text });
    tally.tell(&rt, b"plans")
}
