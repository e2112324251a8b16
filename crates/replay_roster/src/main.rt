// Replays roster checks: those that the Rust answered, and those told from 01 alone, most of them refused.
#![tactic(auto)]

use day_rows::refusal::Refusal;
use roster_check::roster_check::{RosterCounts, Scored, Sheet, check_roster};
use std::io;
use test_cases::days::{Told, told_number, told_of};
use test_cases::parts::{after, few_bytes, rows, words};
use test_cases::replay::{Cases, replay_all};
use test_cases::{byte, first, plus, word};

// The lengths of the slices that a case lends.
#[derive(Clone, Copy)]
struct Lengths {
    mins: usize,
    maxs: usize,
    levels: usize,
    preferences: usize,
    rows: usize,
    assignment_rows: usize,
    plan: usize,
    roster: usize,
}

// Where a record's rows, its assignment rows and its other slices start.
#[derive(Clone, Copy)]
struct Places {
    rows: usize,
    assignment_rows: usize,
    rest: usize,
}

// What a record asks: the counts, and how its slices are laid out.
#[derive(Clone, Copy)]
struct Case {
    counts: RosterCounts,
    lengths: Lengths,
    places: Places,
}

// What the record expects at a place: 0 failed, 1 passed, each with the highest preference; or a refusal's
// number, with the row that it carries. The told records have 100 more; the Rust's file says 10 for a refused
// cell.
fn told_at(bytes: &[u8], at: usize) -> Result<Scored, Told> {
    let written = byte(bytes, at);
    let value = word(bytes, plus(at, 1));
    if written < 2 {
        return Ok(Scored {
            passed: written == 1,
            highest: value,
        });
    }
    let number = if written == 10 {
        10
    } else {
        told_number(written)
    };
    Err(Told {
        number,
        row: u64::from(value),
    })
}

// Whether an answer is the one expected.
fn is_answer(answer: Result<Scored, Refusal>, told: Result<Scored, Told>) -> bool {
    match (answer, told) {
        (Ok(scored), Ok(expected)) => {
            scored.passed == expected.passed && scored.highest == expected.highest
        }
        (Err(why), Err(expected)) => told_of(why) == expected,
        _ => false,
    }
}

// Whether a case whose rows are read is answered as expected; the other slices stand one behind the other,
// and then what is expected.
fn agrees_at(bytes: &[u8], case: &Case, search_rows: &[u64], assignment_rows: &[u64]) -> bool {
    let lengths = case.lengths;
    let mut mins = [0u16; 65];
    let mut maxs = [0u16; 65];
    let mut levels = [0u16; 66];
    let mut preferences = [0u16; 12801];
    let mut plan = [0u8; 65];
    let mut roster = [0u8; 4801];
    let mins_at = case.places.rest;
    let maxs_at = after(mins_at, lengths.mins, 2);
    let levels_at = after(maxs_at, lengths.maxs, 2);
    let preferences_at = after(levels_at, lengths.levels, 2);
    let plan_at = after(preferences_at, lengths.preferences, 2);
    let roster_at = after(plan_at, lengths.plan, 1);
    words(bytes, mins_at, lengths.mins, &mut mins);
    words(bytes, maxs_at, lengths.maxs, &mut maxs);
    words(bytes, levels_at, lengths.levels, &mut levels);
    words(bytes, preferences_at, lengths.preferences, &mut preferences);
    few_bytes(bytes, plan_at, lengths.plan, &mut plan);
    few_bytes(bytes, roster_at, lengths.roster, &mut roster);
    let answer = check_roster(&Sheet {
        counts: case.counts,
        mins: first(&mins, lengths.mins),
        maxs: first(&maxs, lengths.maxs),
        levels: first(&levels, lengths.levels),
        preferences: first(&preferences, lengths.preferences),
        rows: search_rows,
        assignment_rows,
        plan: first(&plan, lengths.plan),
        roster: first(&roster, lengths.roster),
    });
    is_answer(answer, told_at(bytes, after(roster_at, lengths.roster, 1)))
}

// Whether one case is answered as expected: both lists of rows are read, and then the others.
fn agrees(bytes: &[u8], case: &Case) -> bool {
    let Lengths {
        rows: search,
        assignment_rows: assignment,
        ..
    } = case.lengths;
    let mut search_rows = [0u64; 1025];
    let mut assignment_rows = [0u64; 1025];
    rows(bytes, case.places.rows, search, &mut search_rows);
    rows(
        bytes,
        case.places.assignment_rows,
        assignment,
        &mut assignment_rows,
    );
    agrees_at(
        bytes,
        case,
        first(&search_rows, search),
        first(&assignment_rows, assignment),
    )
}

// Whether a record of the Rust's is answered as it says: C, S, H, L, the two lists of rows, each after its
// count, and the rest at the lengths that the counts give.
fn agrees_asked(bytes: &[u8]) -> bool {
    let rows = usize::from(word(bytes, 4));
    let second = after(6, rows, 8);
    let counts = RosterCounts {
        choices: usize::from(byte(bytes, 0)),
        slots: usize::from(byte(bytes, 1)),
        choosers: usize::from(byte(bytes, 2)),
        levels: usize::from(byte(bytes, 3)),
        rows,
        assignment_rows: usize::from(word(bytes, second)),
    };
    let lengths = Lengths {
        mins: counts.choices,
        maxs: counts.choices,
        levels: counts.levels,
        preferences: after(0, counts.choosers, counts.choices),
        rows,
        assignment_rows: counts.assignment_rows,
        plan: counts.choices,
        roster: after(0, counts.choosers, counts.slots),
    };
    let assignment_rows = plus(second, 2);
    let places = Places {
        rows: 6,
        assignment_rows,
        rest: after(assignment_rows, counts.assignment_rows, 8),
    };
    agrees(
        bytes,
        &Case {
            counts,
            lengths,
            places,
        },
    )
}

// Whether a record told from 01 is answered as it says: six counts, eight lengths, the two lists of rows and
// the rest, all of any length.
fn agrees_told(bytes: &[u8]) -> bool {
    let counts = RosterCounts {
        choices: usize::from(word(bytes, 0)),
        slots: usize::from(word(bytes, 2)),
        choosers: usize::from(word(bytes, 4)),
        levels: usize::from(word(bytes, 6)),
        rows: usize::from(word(bytes, 8)),
        assignment_rows: usize::from(word(bytes, 10)),
    };
    let lengths = Lengths {
        mins: usize::from(word(bytes, 12)),
        maxs: usize::from(word(bytes, 14)),
        levels: usize::from(word(bytes, 16)),
        preferences: usize::from(word(bytes, 18)),
        rows: usize::from(word(bytes, 20)),
        assignment_rows: usize::from(word(bytes, 22)),
        plan: usize::from(word(bytes, 24)),
        roster: usize::from(word(bytes, 26)),
    };
    let second = after(28, lengths.rows, 8);
    let places = Places {
        rows: 28,
        assignment_rows: second,
        rest: after(second, lengths.assignment_rows, 8),
    };
    agrees(
        bytes,
        &Case {
            counts,
            lengths,
            places,
        },
    )
}

// The rosters of a file, of which each record tells one that is asked about.
#[derive(Clone, Copy)]
struct AskedSheets;

impl Cases for AskedSheets {
    fn agrees(&mut self, record: &[u8]) -> bool {
        agrees_asked(record)
    }
}

// The refusals of a file, of which each record tells one, its counts and lengths as they are lent.
#[derive(Clone, Copy)]
struct ToldSheets;

impl Cases for ToldSheets {
    fn agrees(&mut self, record: &[u8]) -> bool {
        agrees_told(record)
    }
}

fn main(rt: HostRuntime) -> io::Result<()> {
    let mut record = [0u8; 65536];
    let tally = replay_all(&rt, b"cases", &mut record, &mut AskedSheets);
    tally.tell(&rt, b"roster")?;
    let told = replay_all(&rt, b"refusals", &mut record, &mut ToldSheets);
    told.tell(&rt, b"refusals")
}
