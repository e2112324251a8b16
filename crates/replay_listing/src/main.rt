// Replays listings whose answers a brute force gave: totals, nodes, every page of several sizes, and budgets
// around the node count. Each page is asked of both calls, of the listing and of the walk.
#![tactic(auto)]

use day_rows::check::Counts;
use day_rows::refusal::Refusal;
use expected::{Case, budgets_agree, page_agrees};
use list_all::list_plans::{Listed, list_plans};
use list_page::page::list_page;
use list_starts::asked::Asked;
use plan_check::day::Day;
use std::io;
use test_cases::days::counts_at_front;
use test_cases::pages::{Whole, bytes_of};
use test_cases::parts::{after, part};
use test_cases::replay::{Cases, replay_all};
use test_cases::{BLANK, first, is_filled, number, plus, read_bytes, read_numbers, read_words};

mod expected;

// Most pages of one size that a day is read in: all that it has, or the first few of the largest days.
fn most_pages(nodes: u64) -> u64 {
    if nodes < 400 {
        return 200;
    }
    5
}

// Whether every page of a size, and one past the end, is the expected one.
fn pages_agree(case: &Case, room: u64, buffer: &mut [u8]) -> bool {
    let mut first = 0;
    for _ in 0..most_pages(case.whole.nodes) {
        if !page_agrees(case, &Asked { first, room }, u64::MAX, buffer) {
            return false;
        }
        if case.whole.total <= first {
            return true;
        }
        first = first.wrapping_add(room);
    }
    true
}

// Whether a budget of one node too few runs out of turns, and writes nothing into what is lent.
fn turns_agree(case: &Case, buffer: &mut [u8]) -> bool {
    let size = bytes_of(&case.whole, case.whole.total);
    if buffer.len() < size {
        return false;
    }
    let lent = &mut buffer[..size];
    lent.fill(BLANK);
    let all = Asked {
        first: 0,
        room: case.whole.total,
    };
    let fewer = case.whole.nodes.wrapping_sub(1);
    let listed = list_plans(&case.day, &all, fewer, lent);
    matches!(listed, Ok(Listed::Turns)) && is_filled(lent, 0, BLANK)
}

// The sizes of the pages that a day is read in.
const ROOMS: [u64; 5] = [1, 2, 3, 7, 100];

// Whether every page of several sizes is the expected one.
fn all_pages_agree(case: &Case, buffer: &mut [u8]) -> bool {
    for room in &ROOMS {
        if !pages_agree(case, *room, buffer) {
            return false;
        }
    }
    true
}

// Whether both calls refuse for this reason, and leave the buffer untouched.
fn refused_alike(day: &Day, room: u64, why: Refusal, buffer: &mut [u8]) -> bool {
    buffer.fill(BLANK);
    let asked = Asked { first: 0, room };
    let listed = list_plans(day, &asked, u64::MAX, buffer);
    let paged = list_page(day, &asked, u64::MAX, buffer);
    matches!(listed, Err(given) if given == why)
        && matches!(paged, Err(given) if given == why)
        && is_filled(buffer, 0, BLANK)
}

// Whether both calls refuse 25 slots, one too many, and room for no plan where the buffer has some.
fn refusals_agree(day: &Day, buffer: &mut [u8]) -> bool {
    let many_slots = Day {
        counts: Counts {
            slots: 25,
            ..day.counts
        },
        ..*day
    };
    refused_alike(&many_slots, 0, Refusal::Count, buffer)
        && refused_alike(day, 0, Refusal::Length, buffer)
}

// Whether a day is answered as expected: every page of several sizes, budgets one below, at and one above the
// nodes, and what is refused.
fn day_agrees(case: &Case, buffer: &mut [u8]) -> bool {
    all_pages_agree(case, buffer)
        && budgets_agree(case, buffer)
        && refusals_agree(&case.day, buffer)
        && turns_agree(case, buffer)
}

// Whether one record is answered as expected: a day's numbers from its front on, and behind them what is
// expected.
fn agrees(bytes: &[u8], buffer: &mut [u8]) -> bool {
    let counts = counts_at_front(bytes);
    let choices = counts.choices;
    let at = after(5, counts.rows, 8);
    let mut rows = [0u64; 16];
    let mut mins = [0u16; 64];
    let mut maxs = [0u16; 64];
    let mut optional = [0u8; 64];
    read_numbers(bytes, 5, &mut rows);
    read_words(bytes, at, &mut mins);
    read_words(bytes, after(at, choices, 2), &mut maxs);
    read_bytes(bytes, after(at, choices, 4), &mut optional);
    let day = Day {
        counts,
        mins: first(&mins, choices),
        maxs: first(&maxs, choices),
        optional: first(&optional, choices),
        rows: first(&rows, counts.rows),
    };
    let answer = after(at, choices, 5);
    let whole = Whole {
        choices,
        total: number(bytes, answer),
        nodes: number(bytes, plus(answer, 8)),
        plans: part(bytes, plus(answer, 16), bytes.len()),
    };
    day_agrees(&Case { day, whole }, buffer)
}

// The days of a file, of which each record tells one with its list, and the buffer that pages are written to.
#[derive(Drop)]
struct Days<'a> {
    buffer: &'a mut [u8],
}

impl Cases for Days<'_> {
    fn agrees(&mut self, record: &[u8]) -> bool {
        agrees(record, self.buffer)
    }
}

fn main(rt: HostRuntime) -> io::Result<()> {
    let mut record = [0u8; 12800];
    let mut buffer = [0u8; 12800];
    let tally = replay_all(
        &rt,
        b"cases",
        &mut record,
        &mut Days {
            buffer: &mut buffer,
        },
    );
    tally.tell(&rt, b"listing")
}
