// A search told from 01 alone: a call of any counts and lengths, most often refused.
use search_map::map::Map;
use search_meaning::counts::SearchCounts;
use search_meaning::settings::Settings;
use test_cases::parts::{after, rows, words};
use test_cases::{byte, first, number, word};
use test_search_cases::call;
use test_search_cases::records::{Case, Lengths, Places, analysis_of};

// The lengths of the rows, of the map's parts and of the whole list; and how many of the numbers are written,
// the rest being 0.
#[derive(Clone, Copy)]
struct RowLengths {
    rows: usize,
    starts: usize,
    sizes: usize,
    numbers: usize,
    written: usize,
    whole: usize,
}

// Where the map's parts and the whole list start.
#[derive(Clone, Copy)]
struct MapPlaces {
    starts: usize,
    sizes: usize,
    numbers: usize,
    whole: usize,
}

// Where the rows start, behind counts, lengths and settings.
const ROWS_AT: usize = 95;

// The counts that a record lends, of any size.
fn counts_of(bytes: &[u8]) -> SearchCounts {
    SearchCounts {
        choices: number(bytes, 0) as usize,
        slots: number(bytes, 8) as usize,
        choosers: number(bytes, 16) as usize,
        levels: number(bytes, 24) as usize,
        rows: number(bytes, 32) as usize,
        numbers: number(bytes, 40) as usize,
    }
}

// The lengths of a record's slices beside its rows and its map.
fn lengths_of(bytes: &[u8]) -> Lengths {
    Lengths {
        mins: usize::from(word(bytes, 48)),
        maxs: usize::from(word(bytes, 50)),
        optional: usize::from(word(bytes, 52)),
        levels: usize::from(word(bytes, 54)),
        preferences: usize::from(word(bytes, 56)),
        orders: usize::from(word(bytes, 68)),
        draws: usize::from(word(bytes, 70)),
        plan: usize::from(word(bytes, 72)),
    }
}

// The lengths of a record's rows, map and whole list.
fn row_lengths_of(bytes: &[u8]) -> RowLengths {
    RowLengths {
        rows: usize::from(word(bytes, 58)),
        starts: usize::from(word(bytes, 60)),
        sizes: usize::from(word(bytes, 62)),
        numbers: usize::from(word(bytes, 64)),
        written: usize::from(word(bytes, 74)),
        whole: usize::from(word(bytes, 66)),
    }
}

// What a record asks of the search.
fn settings_of(bytes: &[u8]) -> Settings {
    Settings {
        full: byte(bytes, 76) == 1,
        analysis: analysis_of(byte(bytes, 77)),
        at_last_level: byte(bytes, 78) == 1,
        pass_budget: number(bytes, 79),
        total_budget: number(bytes, 87),
    }
}

// Where the slices stand, one behind the other: rows, mins, maxs, levels, preferences, the map's parts, the
// whole list, draws, optional bytes and orders; then the answer.
fn places_of(lengths: Lengths, row_lengths: RowLengths) -> (Places, MapPlaces) {
    let mins = after(ROWS_AT, row_lengths.rows, 8);
    let maxs = after(mins, lengths.mins, 2);
    let levels = after(maxs, lengths.maxs, 2);
    let preferences = after(levels, lengths.levels, 2);
    let starts = after(preferences, lengths.preferences, 2);
    let sizes = after(starts, row_lengths.starts, 2);
    let numbers = after(sizes, row_lengths.sizes, 2);
    let whole = after(numbers, row_lengths.written, 2);
    let draws = after(whole, row_lengths.whole, 2);
    let optional = after(draws, lengths.draws, 4);
    let orders = after(optional, lengths.optional, 1);
    let places = Places {
        mins,
        maxs,
        optional,
        levels,
        preferences,
        orders,
        draws,
        answer: after(orders, lengths.orders, 1),
    };
    let map_places = MapPlaces {
        starts,
        sizes,
        numbers,
        whole,
    };
    (places, map_places)
}

// Whether one record is answered as told: counts, lengths and settings, then the slices one behind the other.
pub fn agrees(bytes: &[u8]) -> bool {
    let lengths = lengths_of(bytes);
    let row_lengths = row_lengths_of(bytes);
    let (places, at) = places_of(lengths, row_lengths);
    let mut given = [0u64; 1026];
    let mut starts = [0u16; 66];
    let mut sizes = [0u16; 66];
    let mut numbers = [0u16; 10_242];
    let mut whole = [0u16; 1026];
    rows(bytes, ROWS_AT, row_lengths.rows, &mut given);
    words(bytes, at.starts, row_lengths.starts, &mut starts);
    words(bytes, at.sizes, row_lengths.sizes, &mut sizes);
    words(bytes, at.numbers, row_lengths.written, &mut numbers);
    words(bytes, at.whole, row_lengths.whole, &mut whole);
    let case = Case {
        counts: counts_of(bytes),
        settings: settings_of(bytes),
        lengths,
        places,
    };
    let rows = call::Rows {
        rows: first(&given, row_lengths.rows),
        map: Map {
            starts: first(&starts, row_lengths.starts),
            lengths: first(&sizes, row_lengths.sizes),
            numbers: first(&numbers, row_lengths.numbers),
        },
        whole: first(&whole, row_lengths.whole),
    };
    call::agrees(bytes, &case, &rows)
}
