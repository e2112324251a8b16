// How a record of a search is laid out: where its parts stand and how long they are, what it asks, and a lent
// map's entries.
use search_meaning::counts::SearchCounts;
use search_meaning::settings::Settings;
use sets_analysis::analysis::Analysis;
use test_cases::parts::after;
use test_cases::{byte, number, plus, word};

// The lengths of the slices that a case lends beside its rows and its map.
#[derive(Clone, Copy)]
pub struct Lengths {
    pub mins: usize,
    pub maxs: usize,
    pub optional: usize,
    pub levels: usize,
    pub preferences: usize,
    pub orders: usize,
    pub draws: usize,
    pub plan: usize,
}

// Where these slices start, and the answer.
#[derive(Clone, Copy)]
pub struct Places {
    pub mins: usize,
    pub maxs: usize,
    pub optional: usize,
    pub levels: usize,
    pub preferences: usize,
    pub orders: usize,
    pub draws: usize,
    pub answer: usize,
}

// A search that a record asks for beside its rows and its map: counts and settings, and how the slices are
// laid out.
#[derive(Clone, Copy)]
pub struct Case {
    pub counts: SearchCounts,
    pub settings: Settings,
    pub lengths: Lengths,
    pub places: Places,
}

// The analysis that a code of a record asks for.
pub fn analysis_of(code: u8) -> Analysis {
    match code {
        0 => Analysis::Off,
        1 => Analysis::On,
        _ => Analysis::Simplified,
    }
}

// Where the analysis of a record stands, behind C, S, H, L, the rows and the columns.
pub fn asked_at(counts: SearchCounts) -> usize {
    let columns = after(6, counts.rows, 8);
    let levels = after(columns, counts.choices, 5);
    let preferences = after(levels, counts.levels, 2);
    after(preferences, after(0, counts.choosers, counts.choices), 2)
}

// Where the draws are counted, behind the orders from a place on.
fn draws_at(bytes: &[u8], at: usize, choices: usize) -> usize {
    after(plus(at, 2), usize::from(word(bytes, at)), choices)
}

// Where the start flag and the budgets stand, behind the draws.
fn start_at(bytes: &[u8], draws: usize) -> usize {
    after(plus(draws, 2), usize::from(word(bytes, draws)), 4)
}

// What a case asks of the search.
fn settings_of(bytes: &[u8], asked: usize, start: usize) -> Settings {
    Settings {
        full: byte(bytes, plus(asked, 1)) == 1,
        analysis: analysis_of(byte(bytes, asked)),
        at_last_level: byte(bytes, start) == 1,
        pass_budget: number(bytes, plus(start, 1)),
        total_budget: number(bytes, plus(start, 9)),
    }
}

// The lengths that the counts give, with the orders and draws that are counted.
fn lengths_of(counts: SearchCounts, orders: usize, draws: usize) -> Lengths {
    Lengths {
        mins: counts.choices,
        maxs: counts.choices,
        optional: counts.choices,
        levels: counts.levels,
        preferences: after(0, counts.choosers, counts.choices),
        orders: after(0, orders, counts.choices),
        draws,
        plan: counts.choices,
    }
}

// Where the slices start; the orders' and the draws' counts stand before them.
fn places_of(counts: SearchCounts, orders: usize, draws: usize, start: usize) -> Places {
    let mins = after(6, counts.rows, 8);
    let maxs = after(mins, counts.choices, 2);
    let optional = after(maxs, counts.choices, 2);
    let levels = after(optional, counts.choices, 1);
    Places {
        mins,
        maxs,
        optional,
        levels,
        preferences: after(levels, counts.levels, 2),
        orders: plus(orders, 2),
        draws: plus(draws, 2),
        answer: plus(start, 17),
    }
}

// The search of a case whose orders stand from a place on.
pub fn case_at(bytes: &[u8], at: usize, counts: SearchCounts) -> Case {
    let draws = draws_at(bytes, at, counts.choices);
    let start = start_at(bytes, draws);
    let orders = usize::from(word(bytes, at));
    Case {
        counts,
        settings: settings_of(bytes, asked_at(counts), start),
        lengths: lengths_of(counts, orders, usize::from(word(bytes, draws))),
        places: places_of(counts, at, draws, start),
    }
}

// Puts a word at a place of a list, if the list has it.
fn put(words: &mut [u16], at: usize, word: u16) {
    if at < words.len() {
        words[at] = word;
    }
}

// Where an entry starts, or 65,535 for none.
fn start_of(bytes: &[u8], at: usize) -> u16 {
    if byte(bytes, at) == 0 {
        return 65535;
    }
    word(bytes, plus(at, 1))
}

// Reads a lent map: for each choice whether it has an entry, its start and its length. The answer is the
// place after them.
pub fn read_entries(
    bytes: &[u8],
    from: usize,
    choices: usize,
    starts: &mut [u16],
    sizes: &mut [u16],
) -> usize {
    let mut at = from;
    for choice in 0..choices {
        put(starts, choice, start_of(bytes, at));
        put(sizes, choice, word(bytes, plus(at, 3)));
        at = plus(at, 5);
    }
    at
}

// The counts with the number of the map's numbers.
pub fn with_numbers(counts: SearchCounts, numbers: usize) -> SearchCounts {
    SearchCounts { numbers, ..counts }
}

// The counts at a record's front; the number of the map's numbers comes later.
pub fn counts_of(bytes: &[u8]) -> SearchCounts {
    SearchCounts {
        choices: usize::from(byte(bytes, 0)),
        slots: usize::from(byte(bytes, 1)),
        choosers: usize::from(byte(bytes, 2)),
        levels: usize::from(byte(bytes, 3)),
        rows: usize::from(word(bytes, 4)),
        numbers: 0,
    }
}
