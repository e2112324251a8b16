// Replays own maps and lookups told from 01 alone, of any counts and lengths, with the pools that they leave.
#![tactic(auto)]

use day_rows::check::Counts;
use day_rows::number::Choice;
use day_rows::refusal::Refusal;
use search_map::lookup::lookup;
use search_map::map::{Map, MapCounts};
use search_map::own_map::own_map;
use std::io;
use test_cases::days::is_refusal;
use test_cases::parts::{after, all_are, rows, words, words_agree};
use test_cases::replay::{Cases, replay_all};
use test_cases::{byte, first, number, plus, word};

// What a pool's words hold before a call, so that what the call left alone shows.
const BLANK_WORD: u16 = 30_583;

// Where an own map's rows stand, behind its counts and the lengths.
const ROWS_AT: usize = 41;

// Where a lookup's starts stand, behind its counts, its choice and the lengths.
const STARTS_AT: usize = 37;

// Where the answer's words stand behind its first byte and a count.
fn listed_at(at: usize) -> usize {
    plus(at, 3)
}

// Whether all three pools hold a word and nothing else.
fn all_hold(pools: &Map, held: u16) -> bool {
    all_are(pools.starts, held) && all_are(pools.lengths, held) && all_are(pools.numbers, held)
}

// What the pools hold after a refusal: 6 leaves them all zero, the others as they were.
fn left_by(why: Refusal) -> u16 {
    match why {
        Refusal::TooMany => 0,
        _ => BLANK_WORD,
    }
}

// Whether the own map of so many choices stands from a place on, and zeros are behind it in the pools.
fn is_map(bytes: &[u8], at: usize, choices: usize, count: usize, pools: &Map) -> bool {
    let sizes_at = after(listed_at(at), choices, 2);
    byte(bytes, at) == 0
        && usize::from(word(bytes, plus(at, 1))) == count
        && words_agree(bytes, listed_at(at), choices, pools.starts, 0)
        && words_agree(bytes, sizes_at, choices, pools.lengths, 0)
        && words_agree(bytes, after(sizes_at, choices, 2), count, pools.numbers, 0)
}

// Whether an own map's answer and pools are the record's.
fn is_made(
    bytes: &[u8],
    at: usize,
    choices: usize,
    made: Result<usize, Refusal>,
    pools: &Map,
) -> bool {
    match made {
        Ok(count) => is_map(bytes, at, choices, count, pools),
        Err(why) => is_refusal(bytes, at, why) && all_hold(pools, left_by(why)),
    }
}

// An own map that a record asks for: the counts, the rows, the lengths of the three pools, and where the
// answer stands.
#[derive(Clone, Copy)]
struct OwnCase<'a> {
    counts: Counts,
    rows: &'a [u64],
    starts: usize,
    sizes: usize,
    numbers: usize,
    answer: usize,
}

// Makes the own map in the first parts of pools, and tells whether answer and pools are the record's.
fn own_agrees_in(
    bytes: &[u8],
    case: &OwnCase,
    starts: &mut [u16],
    sizes: &mut [u16],
    numbers: &mut [u16],
) -> bool {
    if starts.len() < case.starts {
        return false;
    }
    if sizes.len() < case.sizes {
        return false;
    }
    if numbers.len() < case.numbers {
        return false;
    }
    let made = own_map(
        case.counts,
        case.rows,
        &mut starts[..case.starts],
        &mut sizes[..case.sizes],
        &mut numbers[..case.numbers],
    );
    let pools = Map {
        starts: first(starts, case.starts),
        lengths: first(sizes, case.sizes),
        numbers: first(numbers, case.numbers),
    };
    is_made(bytes, case.answer, case.counts.choices, made, &pools)
}

// Whether a record of an own map is answered as told.
fn own_agrees(bytes: &[u8]) -> bool {
    let length = usize::from(word(bytes, 33));
    let mut given = [0u64; 1026];
    rows(bytes, ROWS_AT, length, &mut given);
    let case = OwnCase {
        counts: Counts {
            choices: number(bytes, 1) as usize,
            slots: number(bytes, 9) as usize,
            choosers: number(bytes, 17) as usize,
            rows: number(bytes, 25) as usize,
        },
        rows: first(&given, length),
        starts: usize::from(word(bytes, 35)),
        sizes: usize::from(word(bytes, 37)),
        numbers: usize::from(word(bytes, 39)),
        answer: after(ROWS_AT, length, 8),
    };
    let mut starts = [BLANK_WORD; 66];
    let mut sizes = [BLANK_WORD; 66];
    let mut numbers = [BLANK_WORD; 10_242];
    own_agrees_in(bytes, &case, &mut starts, &mut sizes, &mut numbers)
}

// Whether a lookup's answer stands from a place on: 0 and the part, or a refusal.
fn is_looked_up(bytes: &[u8], at: usize, answer: Result<&[u16], Refusal>) -> bool {
    match answer {
        Ok(part) => {
            byte(bytes, at) == 0
                && part.len() == usize::from(word(bytes, plus(at, 1)))
                && words_agree(bytes, listed_at(at), part.len(), part, 0)
        }
        Err(why) => is_refusal(bytes, at, why),
    }
}

// The lengths of a lookup's slices, and how many of the numbers are written, the rest being 0.
#[derive(Clone, Copy)]
struct SliceLengths {
    starts: usize,
    sizes: usize,
    numbers: usize,
    whole: usize,
    written: usize,
}

// Where a lookup's slices stand behind the starts, and its answer.
#[derive(Clone, Copy)]
struct SlicePlaces {
    sizes: usize,
    numbers: usize,
    whole: usize,
    answer: usize,
}

// The lengths of a lookup's slices that stand in the record.
fn slice_lengths(bytes: &[u8]) -> SliceLengths {
    SliceLengths {
        starts: usize::from(word(bytes, 27)),
        sizes: usize::from(word(bytes, 29)),
        numbers: usize::from(word(bytes, 31)),
        whole: usize::from(word(bytes, 33)),
        written: usize::from(word(bytes, 35)),
    }
}

// The places of a lookup's slices, one behind the other.
fn slice_places(lengths: SliceLengths) -> SlicePlaces {
    let sizes = after(STARTS_AT, lengths.starts, 2);
    let numbers = after(sizes, lengths.sizes, 2);
    let whole = after(numbers, lengths.written, 2);
    SlicePlaces {
        sizes,
        numbers,
        whole,
        answer: after(whole, lengths.whole, 2),
    }
}

// A record's lookup. Where the entries stand is read here alone: the part that is handed back borrows the
// numbers and the whole list, and nothing else.
fn looked_up<'a>(
    bytes: &[u8],
    lengths: SliceLengths,
    places: SlicePlaces,
    numbers: &'a [u16],
    whole: &'a [u16],
) -> Result<&'a [u16], Refusal> {
    let mut starts = [0u16; 66];
    let mut sizes = [0u16; 66];
    words(bytes, STARTS_AT, lengths.starts, &mut starts);
    words(bytes, places.sizes, lengths.sizes, &mut sizes);
    let counts = MapCounts {
        choices: number(bytes, 1) as usize,
        rows: number(bytes, 9) as usize,
        numbers: number(bytes, 17) as usize,
    };
    let map = Map {
        starts: first(&starts, lengths.starts),
        lengths: first(&sizes, lengths.sizes),
        numbers,
    };
    lookup(counts, Choice(word(bytes, 25)), &map, whole)
}

// Whether a record of a lookup is answered as told.
fn lookup_agrees(bytes: &[u8]) -> bool {
    let lengths = slice_lengths(bytes);
    let places = slice_places(lengths);
    let mut numbers = [0u16; 10_242];
    let mut whole = [0u16; 1026];
    words(bytes, places.numbers, lengths.written, &mut numbers);
    words(bytes, places.whole, lengths.whole, &mut whole);
    let part = looked_up(
        bytes,
        lengths,
        places,
        first(&numbers, lengths.numbers),
        first(&whole, lengths.whole),
    );
    is_looked_up(bytes, places.answer, part)
}

// Whether one record is answered as told: 0 and an own map, or 1 and a lookup.
fn agrees(bytes: &[u8]) -> bool {
    match byte(bytes, 0) {
        0 => own_agrees(bytes),
        _ => lookup_agrees(bytes),
    }
}

// The own maps and lookups of a file, of which each record tells one.
#[derive(Clone, Copy)]
struct Maps;

impl Cases for Maps {
    fn agrees(&mut self, record: &[u8]) -> bool {
        agrees(record)
    }
}

fn main(rt: HostRuntime) -> io::Result<()> {
    let mut record = [0u8; 32768];
    let tally = replay_all(&rt, b"cases", &mut record, &mut Maps);
    tally.tell(&rt, b"maps")
}
