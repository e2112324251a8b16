// One search whose rows and map are read.
use super::answer::is_answer;
use super::records::Case;
use search::search::search;
use search_map::map::Map;
use search_meaning::given::Given;
use test_cases::parts::{draws, part, words};
use test_cases::{BLANK, first};

// The rows that a search is lent, with the map and the whole list of their numbers.
#[derive(Clone, Copy)]
pub struct Rows<'a> {
    pub rows: &'a [u64],
    pub map: Map<'a, 'a>,
    pub whole: &'a [u16],
}

// Searches with what is given, and tells whether the answer is the record's.
fn given_agrees(bytes: &[u8], case: &Case, given: &Given) -> bool {
    let mut plan = [BLANK; 66];
    let planned = case.lengths.plan;
    if plan.len() < planned {
        return false;
    }
    let answer = search(given, case.settings, &mut plan[..planned]);
    is_answer(bytes, case.places.answer, answer, planned, &plan)
}

// Reads the columns, orders and draws of a record, searches, and tells whether the answer is the record's.
pub fn agrees(bytes: &[u8], case: &Case, rows: &Rows) -> bool {
    let lengths = case.lengths;
    let places = case.places;
    let mut mins = [0u16; 66];
    let mut maxs = [0u16; 66];
    let mut levels = [0u16; 66];
    let mut preferences = [0u16; 12_802];
    let mut drawn = [0u32; 64];
    words(bytes, places.mins, lengths.mins, &mut mins);
    words(bytes, places.maxs, lengths.maxs, &mut maxs);
    words(bytes, places.levels, lengths.levels, &mut levels);
    words(
        bytes,
        places.preferences,
        lengths.preferences,
        &mut preferences,
    );
    draws(bytes, places.draws, &mut drawn);
    let given = Given {
        counts: case.counts,
        mins: first(&mins, lengths.mins),
        maxs: first(&maxs, lengths.maxs),
        optional: part(bytes, places.optional, lengths.optional),
        levels: first(&levels, lengths.levels),
        preferences: first(&preferences, lengths.preferences),
        rows: rows.rows,
        map: rows.map,
        whole: rows.whole,
        orders: part(bytes, places.orders, lengths.orders),
        draws: first(&drawn, lengths.draws),
    };
    given_agrees(bytes, case, &given)
}
