// Replays readings of day files, good ones and damaged ones, whose answers were told from document 01 alone.
#![tactic(auto)]

use day_file::counts::FileCounts;
use day_file::read::read_day;
use std::io;
use test_cases::days::{Told, told_of};
use test_cases::parts::{after, all_are, part, rows_agree, words_agree};
use test_cases::replay::{Cases, replay_all};
use test_cases::texts::length_at;
use test_cases::{byte, is_filled, plus, same, word};

// What the pools hold before a call, to see that a refusal leaves them.
const BEFORE: u8 = 9;

// The pools of a reading after the call.
#[derive(Clone, Copy)]
struct Pools<'a> {
    mins: &'a [u16],
    maxs: &'a [u16],
    optional: &'a [u8],
    levels: &'a [u16],
    preferences: &'a [u16],
    rows: &'a [u64],
}

// Whether a pool holds the n bytes from a place on, and zeros past them.
fn bytes_agree(bytes: &[u8], from: usize, n: usize, pool: &[u8]) -> bool {
    same(pool, 0, bytes, from, n) && is_filled(pool, n, 0)
}

// Whether the counts are those that stand from a place on.
fn counts_agree(bytes: &[u8], at: usize, counts: FileCounts) -> bool {
    counts.choices == usize::from(byte(bytes, at))
        && counts.slots == usize::from(byte(bytes, plus(at, 1)))
        && counts.choosers == usize::from(byte(bytes, plus(at, 2)))
        && counts.levels == usize::from(byte(bytes, plus(at, 3)))
        && counts.rows == usize::from(word(bytes, plus(at, 4)))
}

// The refusal that stands at a place: its number, and for 5 the row.
fn refusal_at(bytes: &[u8], at: usize) -> Told {
    let number = byte(bytes, at);
    let row = match number {
        5 => u64::from(word(bytes, plus(at, 1))),
        _ => 0,
    };
    Told { number, row }
}

// Whether every pool is as it was before the call.
fn all_kept(pools: &Pools) -> bool {
    all_are(pools.mins, u16::from(BEFORE))
        && all_are(pools.maxs, u16::from(BEFORE))
        && is_filled(pools.optional, 0, BEFORE)
        && all_are(pools.levels, u16::from(BEFORE))
        && all_are(pools.preferences, u16::from(BEFORE))
        && all_are(pools.rows, u64::from(BEFORE))
}

// Whether the pools hold the day whose lists stand from a place on, and zeros past them.
fn day_agrees(bytes: &[u8], mins: usize, counts: FileCounts, pools: &Pools) -> bool {
    let seats = after(0, counts.choosers, counts.choices);
    let maxs = after(mins, counts.choices, 2);
    let optional = after(maxs, counts.choices, 2);
    let levels = after(optional, counts.choices, 1);
    let preferences = after(levels, counts.levels, 2);
    let rows = after(preferences, seats, 2);
    words_agree(bytes, mins, counts.choices, pools.mins, 0)
        && words_agree(bytes, maxs, counts.choices, pools.maxs, 0)
        && bytes_agree(bytes, optional, counts.choices, pools.optional)
        && words_agree(bytes, levels, counts.levels, pools.levels, 0)
        && words_agree(bytes, preferences, seats, pools.preferences, 0)
        && rows_agree(bytes, rows, counts.rows, pools.rows)
}

// Whether one file, read into pools that hold something before, is answered as told from a place on: 0, the
// counts and the day, or a refusal that leaves the pools.
fn file_agrees(bytes: &[u8], at: usize, file: &[u8]) -> bool {
    let mut mins = [u16::from(BEFORE); 64];
    let mut maxs = [u16::from(BEFORE); 64];
    let mut optional = [BEFORE; 64];
    let mut levels = [u16::from(BEFORE); 64];
    let mut preferences = [u16::from(BEFORE); 12800];
    let mut rows = [u64::from(BEFORE); 128];
    let answer = read_day(
        file,
        &mut mins,
        &mut maxs,
        &mut optional,
        &mut levels,
        &mut preferences,
        &mut rows,
    );
    let pools = Pools {
        mins: &mins,
        maxs: &maxs,
        optional: &optional,
        levels: &levels,
        preferences: &preferences,
        rows: &rows,
    };
    match answer {
        Ok(counts) => {
            byte(bytes, at) == 0
                && counts_agree(bytes, plus(at, 1), counts)
                && day_agrees(bytes, plus(at, 7), counts, &pools)
        }
        Err(why) => told_of(why) == refusal_at(bytes, at) && all_kept(&pools),
    }
}

// Whether one case is answered as told: a file with its length before it, then the answer.
fn agrees(bytes: &[u8]) -> bool {
    let size = length_at(bytes, 0);
    file_agrees(bytes, plus(4, size), part(bytes, 4, size))
}

// The day files of a file of cases, of which each record tells one.
#[derive(Clone, Copy)]
struct DayFiles;

impl Cases for DayFiles {
    fn agrees(&mut self, record: &[u8]) -> bool {
        agrees(record)
    }
}

fn main(rt: HostRuntime) -> io::Result<()> {
    let mut record = [0u8; 65536];
    let tally = replay_all(&rt, b"cases", &mut record, &mut DayFiles);
    tally.tell(&rt, b"day_file")
}
