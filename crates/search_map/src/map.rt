// A map as it is lent: 'a choice's rows are its map entry, or the whole list where it has none'.
ghost use Rattle.std.specs.Prelude.{◌≡◌, ◌≤◌, ◌+◌, ◌<◌, ltb, get_or};
ghost use Rattle.base_lists.specs.Below.{all_below};
ghost use Rattle.base_lists.specs.Pool.{window};
ghost use Rattle.search_map.specs.Map.{map_lent, looked_up, entry_fits, is_whole, map_keeps};
ghost use Rattle.search_map.specs.Calls.{map_full};
ghost use Rattle.search_map.specs.steps.Words.{WordAt};

// A map where it is read: where each choice's entry starts, how long it is, and the numbers of all entries. Two
// lifetimes: a part of the numbers that is handed back doesn't borrow where the entries stand.
#[derive(Clone, Copy)]
pub struct Map<'entries, 'numbers> {
    pub starts: &'entries [u16],
    pub lengths: &'entries [u16],
    pub numbers: &'numbers [u16],
}

// How many choices, rows and numbers a map is lent for: any numbers.
#[derive(Clone, Copy)]
pub struct MapCounts {
    pub choices: usize,
    pub rows: usize,
    pub numbers: usize,
}

// The most choices, which is as many as the pools of starts and lengths have.
pub const MOST_CHOICES: usize = 64;

// The most numbers, which is as many as their pool has.
pub const MOST_NUMBERS: usize = 10_240;

// The start that says that a choice has no entry.
pub const NO_ENTRY: usize = 65_535;

// A word of a pool, or another number past its end.
fn word_at(words: &[u16], i: usize, past: usize) -> usize
    requires { past ≤ 65535 }
    ensures { WordAt words.now i past result }
{
    if words.len() <= i {
        return past;
    }
    usize::from(words[i])
}

// Some of the numbers from a start on, as many of them as there are.
fn part(numbers: &[u16], start: usize, size: usize) -> &[u16]
    requires { (start ≤ 65535) × (size ≤ 65535) }
    ensures { result.now ≡ window start size numbers.now }
{
    let end = start + size;
    if end <= numbers.len() {
        return &numbers[start..end];
    }
    if numbers.len() < start {
        return &numbers[..0];
    }
    &numbers[start..]
}

// A choice's rows in any map: the search's lookup, which its own test for 14 comes before.
pub fn rows_of<'a>(map: &Map<'_, 'a>, whole: &'a [u16], choice: usize) -> &'a [u16]
    ensures { result.now ≡ looked_up (map_lent map.now) whole.now choice }
{
    let start = word_at(map.starts, choice, NO_ENTRY);
    if start == NO_ENTRY {
        return whole;
    }
    part(map.numbers, start, word_at(map.lengths, choice, 0))
}

// Whether the pools are lent at their full limits.
pub fn is_full(map: &Map) -> bool
    ensures { result ≡ map_full (map_lent map.now) }
{
    if map.starts.len() != MOST_CHOICES {
        return false;
    }
    if map.lengths.len() != MOST_CHOICES {
        return false;
    }
    map.numbers.len() == MOST_NUMBERS
}

// Whether a choice has no entry, or one that ends within the count.
fn entry_fits(count: usize, map: &Map, choice: usize) -> bool
    ensures { result ≡ entry_fits count (map_lent map.now) choice }
{
    let start = word_at(map.starts, choice, NO_ENTRY);
    if start == NO_ENTRY {
        return true;
    }
    start + word_at(map.lengths, choice, 0) <= count
}

// Whether every choice has no entry, or one that ends within the count.
fn entries_fit(choices: usize, count: usize, map: &Map) -> bool
    ensures { result ≡ all_below choices (entry_fits count (map_lent map.now)) }
{
    for choice in 0..choices {
        if !entry_fits(count, map, choice) {
            return false;
        }
    }
    true
}

// Whether every number names a row.
// The count stands beside the numbers: it may be more than there are, and 0 is read past their end.
fn numbers_fit(rows: usize, count: usize, numbers: &[u16]) -> bool
    ensures { result ≡ all_below count (λ i. ltb (get_or numbers.now i 0) rows) }
{
    for i in 0..count {
        if rows <= word_at(numbers, i, 0) {
            return false;
        }
    }
    true
}

// Whether the whole list is 0, 1, 2 ..
fn is_whole(whole: &[u16]) -> bool
    ensures { result ≡ is_whole whole.now }
{
    for (i, number) in whole.iter().enumerate() {
        if usize::from(*number) != i {
            return false;
        }
    }
    true
}

// The test of 14: whether every entry ends within the numbers, every number names a row, and the whole list
// is 0, 1, 2 ..
pub fn judge_map(counts: MapCounts, map: &Map, whole: &[u16]) -> bool
    ensures { let map = map_lent map.now in
        result ≡ map_keeps counts.choices counts.rows counts.numbers map whole.now }
{
    if !entries_fit(counts.choices, counts.numbers, map) {
        return false;
    }
    if !numbers_fit(counts.rows, counts.numbers, map.numbers) {
        return false;
    }
    is_whole(whole)
}
