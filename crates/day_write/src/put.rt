// Putting the parts of a day file into a pool of bytes, each from a place on.
ghost use Rattle.std.specs.Prelude.{◌≡◌, true, [], ◌∷◌, ◌++◌, ℕ, ◌+◌, ◌*◌, ◌-◌, ◌/◌, ◌%◌, ◌<◌, ◌≤◌, length, get_or};
ghost use Rattle.std.proofs.lemmas.List.Edits.{sets};
ghost use Rattle.base_lists.specs.Flat.{join_below};
ghost use Rattle.day_file.specs.FileDay.{file_counts_in_range};
ghost use Rattle.day_file.specs.File.{word, head_bytes, choice_bytes, row_bytes, places_of};
ghost use Rattle.day_write.specs.steps.Held.{BytesHold};

use super::word::{put_row, put_word};
use day_file::counts::FileCounts;
use day_file::day::FileDay;

// The length of the rest of a file with these counts: all but its first four bytes.
fn rest_of(counts: FileCounts) -> usize
    requires { file_counts_in_range counts ≡ true }
    ensures { result ≡ (places_of 5 counts).end - 4 }
{
    let preferences = counts.choosers * counts.choices;
    7 + 5 * counts.choices + 2 * counts.levels + 2 * preferences + 6 * counts.rows
}

// Puts the four bytes of the rest's length at the start of a pool.
fn put_length(pool: &mut [u8], rest: usize)
    requires fits { rest < 65536 * 65536 }
    requires room { 11 ≤ length pool.old }
    ensures { pool.new ≡ sets pool.old 0 (word (rest / 65536) ++ word (rest % 65536)) }
{
    put_word(pool, 0, (rest / 65536) as u16);
    put_word(pool, 2, (rest % 65536) as u16);
}

// Puts version, C, S, H, L and the row count from byte 4 on.
fn put_counts(pool: &mut [u8], counts: FileCounts)
    requires ranges { file_counts_in_range counts ≡ true }
    requires room { 11 ≤ length pool.old }
    ensures { let numbers = counts.choices ∷ counts.slots ∷ counts.choosers ∷ counts.levels ∷ word counts.rows in
        pool.new ≡ sets pool.old 4 (1 ∷ numbers) }
{
    pool[4] = 1;
    pool[5] = counts.choices as u8;
    pool[6] = counts.slots as u8;
    pool[7] = counts.choosers as u8;
    pool[8] = counts.levels as u8;
    put_word(pool, 9, counts.rows as u16);
}

// Puts the head of a file: length of the rest, version, counts.
pub(crate) fn put_head(pool: &mut [u8], counts: FileCounts)
    requires ranges { file_counts_in_range counts ≡ true }
    requires room { 11 ≤ length pool.old }
    ensures { pool.new ≡ sets pool.old 0 (head_bytes 1 counts) }
{
    put_length(pool, rest_of(counts));
    put_counts(pool, counts);
}

// Puts one choice from a place on: min, max, optional.
fn put_choice(pool: &mut [u8], at: usize, min: u16, max: u16, optional: u8)
    requires { at + 4 < length pool.old }
    ensures { pool.new ≡ sets pool.old at (word min ++ (word max ++ (optional ∷ []))) }
{
    put_word(pool, at, min);
    put_word(pool, at + 2, max);
    pool[at + 4] = optional;
}

// Puts a day's choices from byte 11 on, one after the other; the answer is the place past them.
pub(crate) fn put_choices(pool: &mut [u8], day: &FileDay) -> usize
    requires lengths { let day = day.now in
        let choices = day.counts.choices in
        (choices ≤ length day.mins.now) × (choices ≤ length day.maxs.now) × (choices ≤ length day.optional.now) }
    requires room { 11 + 5 * day.now.counts.choices ≤ length pool.old }
    ensures end { result ≡ 11 + 5 * day.now.counts.choices }
    ensures bytes { let day = day.now in
        let bytes = choice_bytes day.mins.now day.maxs.now day.optional.now in
        pool.new ≡ sets pool.old 11 (join_below day.counts.choices bytes) }
{
    let n = day.counts.choices;
    let mins = day.mins;
    let maxs = day.maxs;
    let optional = day.optional;
    for i in 0..n {
        put_choice(pool, 11 + 5 * i, mins[i], maxs[i], optional[i]);
    }
    11 + 5 * n
}

// Puts a list of words from a place on, one after the other; the answer is the place past them.
pub(crate) fn put_words(pool: &mut [u8], at: usize, words: &[u16]) -> usize
    requires { at + 2 * length words.now ≤ length pool.old }
    ensures end { result ≡ at + 2 * length words.now }
    ensures bytes { let list = words.now in
        pool.new ≡ sets pool.old at (join_below (length list) (λ i. word (get_or list i 0))) }
{
    for (i, word) in words.iter().enumerate() {
        put_word(pool, at + 2 * i, *word);
    }
    at + 2 * words.len()
}

// Puts a list of rows from a place on, one after the other; the answer is the place past them. It stands
// beside `put_words`, since a row takes six bytes and asks for columns that fit them.
pub(crate) fn put_rows(pool: &mut [u8], at: usize, rows: &[u64]) -> usize
    requires room { at + 6 * length rows.now ≤ length pool.old }
    requires held { (i : ℕ) → i < length rows.now → BytesHold (get_or rows.now i 0) }
    ensures end { result ≡ at + 6 * length rows.now }
    ensures bytes { let list = rows.now in
        pool.new ≡ sets pool.old at (join_below (length list) (λ i. row_bytes (get_or list i 0))) }
{
    for (i, row) in rows.iter().enumerate() {
        put_row(pool, at + 6 * i, *row);
    }
    at + 6 * rows.len()
}
