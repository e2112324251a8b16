// Replays analyses of critical sets whose answers the Rust gave: the sets, the bound, and each level's list.
#![tactic(auto)]

use day_rows::refusal::Refusal;
use sets_analysis::analysis::{Analysis, analyze};
use sets_analysis::day::{SetsCounts, SetsDay};
use sets_levels::level_list::level_list;
use std::io;
use test_cases::parts::{after, entries_agree};
use test_cases::replay::{Cases, replay_all};
use test_cases::{byte, first, number, plus, read_words, word};

// What a pool holds before a call, so that what the call left alone shows.
const BLANK: u64 = 119;

// The sets that an analysis left in the pools, with the levels of the day.
#[derive(Clone, Copy)]
struct Sets<'a> {
    levels: &'a [u16],
    masks: &'a [u64],
    set_levels: &'a [u16],
    count: usize,
}

// The analysis that a case asks for.
fn asked(code: u8) -> Analysis {
    match code {
        0 => Analysis::Off,
        1 => Analysis::On,
        _ => Analysis::Simplified,
    }
}

// Where the next list of sets begins: ten bytes a set after the count.
fn after_list(bytes: &[u8], at: usize) -> usize {
    after(plus(at, 2), usize::from(word(bytes, at)), 10)
}

// Whether the pool holds the members of a list of sets, and zeros after them.
fn members_agree(bytes: &[u8], at: usize, count: usize, pool: &[u64]) -> bool {
    count == usize::from(word(bytes, at)) && entries_agree(bytes, plus(at, 4), 10, count, pool, 0)
}

// Whether the pool holds the levels of a list of sets, and zeros after them.
fn levels_agree(bytes: &[u8], at: usize, count: usize, pool: &[u16]) -> bool {
    entries_agree(bytes, plus(at, 2), 10, count, pool, 0)
}

// Whether the pools hold a list of sets, and zeros after them.
fn sets_agree(bytes: &[u8], at: usize, sets: &Sets) -> bool {
    members_agree(bytes, at, sets.count, sets.masks)
        && levels_agree(bytes, at, sets.count, sets.set_levels)
}

// Whether the list of one limit is the Rust's.
fn list_agrees(bytes: &[u8], at: usize, limit: u16, sets: &Sets) -> bool {
    let mut list = [BLANK; 1024];
    let answer = level_list(
        sets.levels,
        limit,
        sets.masks,
        sets.set_levels,
        sets.count,
        &mut list,
    );
    matches!(answer, Ok(listed) if members_agree(bytes, at, listed, &list))
}

// Whether each level's list is the Rust's, and after them that of the limit asked.
fn lists_agree(bytes: &[u8], from: usize, limit: u16, sets: &Sets) -> bool {
    let mut at = from;
    for level in sets.levels {
        if !list_agrees(bytes, at, *level, sets) {
            return false;
        }
        at = after_list(bytes, at);
    }
    list_agrees(bytes, at, limit, sets)
}

// Whether the answer, told from a place on, is this one: 0, the number of sets kept, the bound, the sets and
// the lists.
fn answer_agrees(bytes: &[u8], at: usize, limit: u16, sets: &Sets, bound: u16) -> bool {
    let sets_at = plus(at, 7);
    byte(bytes, at) == 0
        && word(bytes, plus(at, 5)) == bound
        && sets_agree(bytes, sets_at, sets)
        && lists_agree(bytes, after_list(bytes, sets_at), limit, sets)
}

// Whether a refusal is the one told: 7, with both pools all zero.
fn refusal_agrees(bytes: &[u8], at: usize, why: Refusal, sets: &Sets) -> bool {
    byte(bytes, at) == 1 && why == Refusal::Sets && sets_agree(b"", 0, sets)
}

// Whether a day is answered as the Rust did: the analysis, the limit and the answer stand from a place on.
fn day_agrees(bytes: &[u8], at: usize, day: &SetsDay) -> bool {
    let mut masks = [BLANK; 1024];
    let mut set_levels = [BLANK as u16; 1024];
    let answer = analyze(day, asked(byte(bytes, at)), &mut masks, &mut set_levels);
    let count = match answer {
        Ok(figures) => figures.count,
        Err(_) => 0,
    };
    let sets = Sets {
        levels: day.levels,
        masks: &masks,
        set_levels: &set_levels,
        count,
    };
    let told = plus(at, 3);
    match answer {
        Ok(figures) => answer_agrees(bytes, told, word(bytes, plus(at, 1)), &sets, figures.bound),
        Err(why) => refusal_agrees(bytes, told, why, &sets),
    }
}

// Whether one case is answered as the Rust did: C, S, H, L, the mins, the levels, the preferences, then what
// is asked and the answer.
fn agrees(bytes: &[u8]) -> bool {
    let counts = SetsCounts {
        choices: usize::from(byte(bytes, 0)),
        slots: usize::from(byte(bytes, 1)),
        choosers: usize::from(byte(bytes, 2)),
        levels: usize::from(byte(bytes, 3)),
    };
    let mut mins = [0u16; 64];
    let mut levels = [0u16; 64];
    let mut preferences = [0u16; 12800];
    let cells = after(0, counts.choosers, counts.choices);
    let levels_at = after(4, counts.choices, 2);
    let preferences_at = after(levels_at, counts.levels, 2);
    read_words(bytes, 4, &mut mins);
    read_words(bytes, levels_at, &mut levels);
    read_words(bytes, preferences_at, &mut preferences);
    let day = SetsDay {
        counts,
        mins: first(&mins, counts.choices),
        levels: first(&levels, counts.levels),
        preferences: first(&preferences, cells),
    };
    day_agrees(bytes, after(preferences_at, cells, 2), &day)
}

// The days of a file, of which each record tells one with its sets.
#[derive(Clone, Copy)]
struct Days;

impl Cases for Days {
    fn agrees(&mut self, record: &[u8]) -> bool {
        agrees(record)
    }
}

fn main(rt: HostRuntime) -> io::Result<()> {
    let mut record = [0u8; 32768];
    let tally = replay_all(&rt, b"cases", &mut record, &mut Days);
    tally.tell(&rt, b"critical_sets")
}
