// A search that the oracle answered: a whole day, its map own, lent or missing, its slices at the lengths
// that the counts give.
use search_map::map::Map;
use search_map::own_map::own_map;
use search_meaning::counts::{SearchCounts, row_counts};
use test_cases::parts::{after, count_up, rows, words};
use test_cases::{byte, first, plus, word};
use test_search_cases::answer::is_refusal;
use test_search_cases::call;
use test_search_cases::records::{asked_at, case_at, counts_of, read_entries, with_numbers};

// Whether a case is answered as told whose rows and map are read; orders, draws, start and budgets stand from
// a place on.
fn agrees_at(bytes: &[u8], at: usize, counts: SearchCounts, rows: &[u64], map: Map) -> bool {
    let mut whole = [0u16; 1024];
    count_up(&mut whole);
    let rows = call::Rows {
        rows,
        map,
        whole: first(&whole, counts.rows),
    };
    call::agrees(bytes, &case_at(bytes, at, counts), &rows)
}

// Whether a case with a lent map is answered as told: its entries and numbers stand from a place on.
fn lent_agrees(bytes: &[u8], from: usize, counts: SearchCounts, rows: &[u64]) -> bool {
    let mut starts = [65535u16; 64];
    let mut lengths = [0u16; 64];
    let mut numbers = [0u16; 10_240];
    let at = read_entries(bytes, from, counts.choices, &mut starts, &mut lengths);
    let count = usize::from(word(bytes, at));
    words(bytes, plus(at, 2), count, &mut numbers);
    let next = after(plus(at, 2), count, 2);
    let map = Map {
        starts: &starts,
        lengths: &lengths,
        numbers: &numbers,
    };
    agrees_at(bytes, next, with_numbers(counts, count), rows, map)
}

// Whether a case in which no choice has an entry is answered as told.
fn bare_agrees(bytes: &[u8], at: usize, counts: SearchCounts, rows: &[u64]) -> bool {
    let map = Map {
        starts: &[65535u16; 64],
        lengths: &[0u16; 64],
        numbers: &[0u16; 10_240],
    };
    agrees_at(bytes, at, counts, rows, map)
}

// Whether a case with the own map is answered as told, or its own map has too many numbers as told.
fn own_agrees(bytes: &[u8], at: usize, counts: SearchCounts, rows: &[u64]) -> bool {
    let mut starts = [0u16; 64];
    let mut lengths = [0u16; 64];
    let mut numbers = [0u16; 10_240];
    let made = own_map(
        row_counts(counts),
        rows,
        &mut starts,
        &mut lengths,
        &mut numbers,
    );
    let map = Map {
        starts: &starts,
        lengths: &lengths,
        numbers: &numbers,
    };
    match made {
        Ok(count) => agrees_at(bytes, at, with_numbers(counts, count), rows, map),
        Err(why) => is_refusal(bytes, case_at(bytes, at, counts).places.answer, why),
    }
}

// Whether a case whose rows are read is answered as told, by the kind of its map.
fn map_agrees(bytes: &[u8], counts: SearchCounts, rows: &[u64]) -> bool {
    let asked = asked_at(counts);
    let at = plus(asked, 3);
    match byte(bytes, plus(asked, 2)) {
        0 => bare_agrees(bytes, at, counts, rows),
        1 => own_agrees(bytes, at, counts, rows),
        _ => lent_agrees(bytes, at, counts, rows),
    }
}

// Whether one record is answered as told: C, S, H, L, the rows and the columns, then the analysis, the mode
// and the map.
pub fn agrees(bytes: &[u8]) -> bool {
    let counts = counts_of(bytes);
    let mut pool = [0u64; 1025];
    rows(bytes, 6, counts.rows, &mut pool);
    map_agrees(bytes, counts, first(&pool, counts.rows))
}
