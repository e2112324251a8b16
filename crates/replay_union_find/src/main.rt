// Replays union-find runs whose answers the Rust gave: joins, then the root of each element, then the groups,
// then the record.
#![tactic(auto)]

use day_rows::refusal::Refusal;
use reduce_union_find::UnionFind;
use std::io;
use test_cases::replay::{Cases, replay_all};
use test_cases::{byte, is_filled, plus, same, word};

// A union-find made by a run's joins, and whether each join answered as expected so far.
#[derive(Clone, Copy)]
struct Run {
    state: UnionFind,
    agrees: bool,
}

// Whether an answer of `find` or `join` is this root.
fn is_root(found: Result<usize, Refusal>, root: u8) -> bool {
    matches!(found, Ok(r) if r == usize::from(root))
}

// Makes one join of a run, held to the root that the Rust returned.
fn join_one(run: Run, choices: usize, left: u8, right: u8, root: u8) -> Run {
    if !run.agrees {
        return run;
    }
    let joined = run
        .state
        .join(choices, usize::from(left), usize::from(right));
    Run {
        state: joined.state,
        agrees: is_root(joined.found, root),
    }
}

// Makes the joins of a run: a record's pairs stand from place 3 on, and after them the roots.
fn join_all(bytes: &[u8], choices: usize, joins: usize, roots: usize) -> Run {
    let mut run = Run {
        state: UnionFind::new(),
        agrees: true,
    };
    let mut at = 3;
    for i in 0..joins {
        let left = byte(bytes, at);
        let right = byte(bytes, plus(at, 1));
        run = join_one(run, choices, left, right, byte(bytes, plus(roots, i)));
        at = plus(at, 2);
    }
    run
}

// Whether the root of each element is the one that stands from a place on.
fn roots_agree(bytes: &[u8], at: usize, choices: usize, state: UnionFind) -> bool {
    for i in 0..choices {
        if !is_root(state.find(choices, i), byte(bytes, plus(at, i))) {
            return false;
        }
    }
    true
}

// Whether one group, in the pool from start to end, is the one whose size and members stand from a place on.
fn group_agrees(bytes: &[u8], at: usize, members: &[u8], start: usize, end: usize) -> bool {
    let size = usize::from(byte(bytes, at));
    end == plus(start, size) && same(members, start, bytes, plus(at, 1), size)
}

// Whether the groups are those that stand from a place on, one after another.
fn members_agree(bytes: &[u8], from: usize, count: usize, members: &[u8], ends: &[u8]) -> bool {
    let mut at = from;
    let mut start = 0;
    for g in 0..count {
        let end = usize::from(byte(ends, g));
        if !group_agrees(bytes, at, members, start, end) {
            return false;
        }
        at = plus(plus(at, 1), usize::from(byte(bytes, at)));
        start = end;
    }
    true
}

// Whether the call `groups` answers what stands from a place on, with both pools zero past it.
fn groups_agree(bytes: &[u8], at: usize, choices: usize, state: UnionFind) -> bool {
    let mut members = [9u8; 64];
    let mut ends = [9u8; 64];
    let Ok(count) = state.groups(choices, &mut members, &mut ends) else {
        return false;
    };
    usize::from(byte(bytes, at)) == count
        && is_filled(&members, choices, 0)
        && is_filled(&ends, count, 0)
        && members_agree(bytes, plus(at, 1), count, &members, &ends)
}

// Whether the parents and the heights of the elements are those that stand from a place on.
fn entries_agree(bytes: &[u8], at: usize, choices: usize, state: UnionFind) -> bool {
    same(&state.parents, 0, bytes, at, choices)
        && same(&state.heights, 0, bytes, plus(at, choices), choices)
}

// Whether one run is the Rust's: joins, roots, groups and entries.
fn agrees(bytes: &[u8]) -> bool {
    let choices = usize::from(byte(bytes, 0));
    let joins = usize::from(word(bytes, 1));
    let run = join_all(bytes, choices, joins, 3 + 2 * joins);
    let roots = 3 + 3 * joins;
    let groups = plus(roots, choices);
    let entries = plus(plus(groups, choices), 1 + usize::from(byte(bytes, groups)));
    run.agrees
        && roots_agree(bytes, roots, choices, run.state)
        && groups_agree(bytes, groups, choices, run.state)
        && entries_agree(bytes, entries, choices, run.state)
}

// The runs of a file, of which each record tells one.
#[derive(Clone, Copy)]
struct Runs;

impl Cases for Runs {
    fn agrees(&mut self, record: &[u8]) -> bool {
        agrees(record)
    }
}

fn main(rt: HostRuntime) -> io::Result<()> {
    let mut record = [0u8; 4096];
    let tally = replay_all(&rt, b"cases", &mut record, &mut Runs);
    tally.tell(&rt, b"union_find")
}
