// Replays reductions whose answers the Rust gave: the rows, the clash flag, and 6 where there are over 1,024
// rows before equals are dropped.
#![tactic(auto)]

use day_rows::check::Counts;
use day_rows::refusal::Refusal;
use reduce::{Reduction, reduce};
use std::io;
use test_cases::days::counts_at_front;
use test_cases::parts::{after, all_are, rows_agree};
use test_cases::replay::{Cases, replay_all};
use test_cases::{byte, first, plus, read_numbers, word};

// Whether a reduction is the Rust's: status 0, the flag, the count and the rows; the pool zero past them.
fn reduction_agrees(bytes: &[u8], at: usize, reduction: Reduction, pool: &[u64]) -> bool {
    byte(bytes, at) == 0
        && (byte(bytes, plus(at, 5)) == 1) == reduction.clash
        && usize::from(word(bytes, plus(at, 6))) == reduction.count
        && rows_agree(bytes, plus(at, 8), reduction.count, pool)
}

// Whether a refusal is right: the Rust's count is over 1,024, the number is 6, and the pool is all zero.
fn refusal_agrees(bytes: &[u8], at: usize, why: Refusal, pool: &[u64]) -> bool {
    byte(bytes, at) == 1 && why == Refusal::TooMany && all_are(pool, 0)
}

// Whether a case with its rows read is answered as the Rust did: the answer stands from a place on.
fn agrees_at(bytes: &[u8], at: usize, counts: Counts, rows: &[u64]) -> bool {
    let mut pool = [7u64; 1024];
    match reduce(counts, rows, &mut pool) {
        Ok(reduction) => reduction_agrees(bytes, at, reduction, &pool),
        Err(why) => refusal_agrees(bytes, at, why, &pool),
    }
}

// Whether one case is answered as the Rust did: C, S, H, the given rows and the answer.
fn agrees(bytes: &[u8]) -> bool {
    let counts = counts_at_front(bytes);
    let mut rows = [0u64; 128];
    read_numbers(bytes, 5, &mut rows);
    agrees_at(
        bytes,
        after(5, counts.rows, 8),
        counts,
        first(&rows, counts.rows),
    )
}

// The days of a file, of which each record tells one with its reduction.
#[derive(Clone, Copy)]
struct Days;

impl Cases for Days {
    fn agrees(&mut self, record: &[u8]) -> bool {
        agrees(record)
    }
}

fn main(rt: HostRuntime) -> io::Result<()> {
    let mut record = [0u8; 16384];
    let tally = replay_all(&rt, b"cases", &mut record, &mut Days);
    tally.tell(&rt, b"reduction")
}
