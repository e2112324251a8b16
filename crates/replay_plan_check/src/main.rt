// Replays plan checks whose answers the Rust gave.
#![tactic(auto)]

use day_rows::check::Counts;
use day_rows::refusal::Refusal;
use plan_check::day::Day;
use plan_check::plan_check::check_plan;
use std::io;
use test_cases::days::counts_at_front;
use test_cases::parts::after;
use test_cases::replay::{Cases, replay_all};
use test_cases::{byte, first, read_bytes, read_numbers, read_words};

// Whether the plan check answers as the Rust did: 1 for feasible, 0 for infeasible.
fn is_answer(answer: Result<bool, Refusal>, expected: u8) -> bool {
    matches!(answer, Ok(feasible) if expected == u8::from(feasible))
}

// Whether a case with its rows read is answered as the Rust did: the other columns stand from a place on.
fn agrees_at(bytes: &[u8], at: usize, counts: Counts, rows: &[u64]) -> bool {
    let c = counts.choices;
    let mut mins = [0u16; 64];
    let mut maxs = [0u16; 64];
    let mut optional = [0u8; 64];
    let mut plan = [0u8; 64];
    read_words(bytes, at, &mut mins);
    read_words(bytes, after(at, c, 2), &mut maxs);
    read_bytes(bytes, after(at, c, 4), &mut optional);
    read_bytes(bytes, after(at, c, 5), &mut plan);
    let day = Day {
        counts,
        mins: first(&mins, c),
        maxs: first(&maxs, c),
        optional: first(&optional, c),
        rows,
    };
    is_answer(
        check_plan(&day, first(&plan, c)),
        byte(bytes, after(at, c, 6)),
    )
}

// Whether one case is answered as the Rust did: C, S, H, the rows, the columns of the choices, the plan and
// the answer.
fn agrees(bytes: &[u8]) -> bool {
    let counts = counts_at_front(bytes);
    let mut rows = [0u64; 1024];
    read_numbers(bytes, 5, &mut rows);
    agrees_at(
        bytes,
        after(5, counts.rows, 8),
        counts,
        first(&rows, counts.rows),
    )
}

// The plans of a file, of which each record tells one with its day.
#[derive(Clone, Copy)]
struct Plans;

impl Cases for Plans {
    fn agrees(&mut self, record: &[u8]) -> bool {
        agrees(record)
    }
}

fn main(rt: HostRuntime) -> io::Result<()> {
    let mut record = [0u8; 16384];
    let tally = replay_all(&rt, b"cases", &mut record, &mut Plans);
    tally.tell(&rt, b"plan_check")
}
