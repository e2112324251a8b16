// The pages of an example day joined are its whole list: the skills day with over a thousand plans, read,
// reduced and listed page by page.
#![tactic(auto)]

use day_file::read::read_day;
use day_rows::check::Counts;
use listed::{list_day, tell_differ};
use plan_check::day::Day;
use reduce::{Reduction, reduce};
use std::io;
use test_cases::{first, open_read};
use text_lines::program::read_full;

mod listed;

// A row's number holds its kind from this place on.
const KIND_AT: u64 = 0x1_0000_0000_0000;

// How many rows of a reduction are the listing's: those of kinds 1 to 6, which stand before the others.
fn listing_rows(rows: &[u64]) -> usize {
    rows.iter()
        .position(|row| 6 < *row / KIND_AT)
        .unwrap_or(rows.len())
}

// Reduces a day, and lists it by the listing's part of its reduced rows.
fn reduce_day(rt: &impl Print, day: &Day) -> io::Result<()> {
    let mut pool = [0u64; 1024];
    let Ok(
        Reduction {
            count,
            clash: false,
        },
    ) = reduce(day.counts, day.rows, &mut pool)
    else {
        return tell_differ(rt);
    };
    let rows = listing_rows(first(&pool, count));
    let reduced = Day {
        counts: Counts { rows, ..day.counts },
        rows: first(&pool, rows),
        ..*day
    };
    list_day(rt, &reduced)
}

// Reads the day of a file, and reduces and lists it.
fn read_file(rt: &impl Print, file: &[u8]) -> io::Result<()> {
    let mut mins = [0u16; 64];
    let mut maxs = [0u16; 64];
    let mut optional = [0u8; 64];
    let mut levels = [0u16; 64];
    let mut preferences = [0u16; 12_800];
    let mut rows = [0u64; 128];
    let read = read_day(
        file,
        &mut mins,
        &mut maxs,
        &mut optional,
        &mut levels,
        &mut preferences,
        &mut rows,
    );
    let Ok(counts) = read else {
        return tell_differ(rt);
    };
    let day = Day {
        counts: counts.for_rows(),
        mins: first(&mins, counts.choices),
        maxs: first(&maxs, counts.choices),
        optional: first(&optional, counts.choices),
        rows: first(&rows, counts.rows),
    };
    reduce_day(rt, &day)
}

fn main(rt: HostRuntime) -> io::Result<()> {
    // Room for the day file, and for more than it has.
    let mut file = [0u8; 4096];
    let size = match open_read(&rt, b"skills-day.day") {
        Some(mut opened) => read_full(&mut opened, &mut file),
        None => 0,
    };
    read_file(&rt, first(&file, size))
}
