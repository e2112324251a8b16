// Replays whole texts of the program `plan`, whose answers were told from document 01 alone.
#![tactic(auto)]

use std::io;
use test_cases::replay::{Cases, replay_all};
use test_cases::texts::text_agrees;
use test_cases::{BLANK, word};
use text_lines::plan_lines::LONGEST_TEXT;
use text_plan::text::plan_text;

// Where a record's file begins.
const FILE_AT: usize = 4;

// Whether one case is answered as told: a file with its length before it, then the answer.
fn agrees(bytes: &[u8], text: &mut [u8]) -> bool {
    let size = (word(bytes, 0) as usize) * 65_536 + word(bytes, 2) as usize;
    let end = size + FILE_AT;
    if bytes.len() < end {
        return false;
    }
    text.fill(BLANK);
    match plan_text(&bytes[FILE_AT..end], text) {
        Ok(size) => text_agrees(bytes, end, size, text),
        Err(_) => false,
    }
}

// The texts of a file, of which each record tells one, with the pool in which they are made.
#[derive(Drop)]
struct Texts<'a> {
    pool: &'a mut [u8],
}

impl Cases for Texts<'_> {
    fn agrees(&mut self, record: &[u8]) -> bool {
        agrees(record, self.pool)
    }
}

fn main(rt: HostRuntime) -> io::Result<()> {
    let mut record = [0u8; 65_536];
    let mut text = [BLANK; LONGEST_TEXT];
    let tally = replay_all(&rt, b"cases", &mut record, &mut Texts { pool: &mut text });
    tally.tell(&rt, b"plan")
}
