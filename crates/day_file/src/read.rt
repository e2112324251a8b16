// Reading a day file: the bytes are judged first, then the pools are filled.
ghost use Rattle.std.specs.Prelude.{◌≡◌, true, ◌≤◌, length};
ghost use Rattle.day_rows.specs.Told.{outcome, tells};
ghost use Rattle.day_file.specs.FileDay.{parts, file_counts_in_range, pools_full, lengths_full, padded, day};
ghost use Rattle.day_file.specs.File.{length_in, counts_in, places_of, lists_in};
ghost use Rattle.day_file.specs.Calls.{head_judged, body_judged, file_judged, read_of};

use super::counts::FileCounts;
use super::file_words::rest_of;
use super::fill::{fill_optional, fill_rows, fill_words};
use super::judge::{levels_in, optional_in, preferences_in, rows_in};
use super::word::word_at;
use day_rows::refusal::Refusal;

// The length that a file tells of itself: 'Four bytes: length of the rest'.
fn length_in(file: &[u8]) -> usize
    requires { 4 ≤ length file.now }
    ensures { result ≡ length_in file.now }
{
    let high = usize::from(word_at(file, 0));
    let low = usize::from(word_at(file, 2));
    high * 65536 + low
}

// The counts that a file carries: 'C, S, H, L (a byte each), row count (2 bytes)'.
fn counts_in(file: &[u8]) -> FileCounts
    requires { 11 ≤ length file.now }
    ensures { result ≡ counts_in file.now }
{
    FileCounts {
        choices: usize::from(file[5]),
        slots: usize::from(file[6]),
        choosers: usize::from(file[7]),
        levels: usize::from(file[8]),
        rows: usize::from(word_at(file, 9)),
    }
}

// A file's head judged: 'a file goes 11, 12, 1, 11 for the counted body'.
fn judge_head(file: &[u8]) -> Result<(), Refusal>
    ensures { tells result ≡ head_judged file.now }
{
    if file.len() < 11 {
        return Err(Refusal::FileLength);
    }
    if length_in(file) != rest_of(file.len()) {
        return Err(Refusal::FileLength);
    }
    if file[4] != 1 {
        return Err(Refusal::Version);
    }
    let counts = counts_in(file);
    if !counts.in_range() {
        return Err(Refusal::Count);
    }
    if counts.places().end != file.len() {
        return Err(Refusal::FileLength);
    }
    Ok(())
}

// The body of a file whose head is good, judged: '13, 3, 4, 5'.
fn judge_body(file: &[u8], counts: FileCounts) -> Result<(), Refusal>
    requires ranges { file_counts_in_range counts ≡ true }
    requires end { (places_of 5 counts).end ≡ length file.now }
    ensures { tells result ≡ body_judged (day counts (lists_in file.now counts)) }
{
    let lists = counts.columns();
    if !optional_in(file, lists.optional) {
        return Err(Refusal::Optional);
    }
    if !levels_in(file, lists.levels) {
        return Err(Refusal::Levels);
    }
    let last = word_at(file, lists.preferences.at - 2);
    if !preferences_in(file, lists.preferences, last) {
        return Err(Refusal::Preference);
    }
    rows_in(file, lists.rows, counts.for_rows())
}

// The whole file judged, head and body, with no pool touched.
fn judge_file(file: &[u8]) -> Result<(), Refusal>
    ensures { tells result ≡ file_judged file.now }
{
    judge_head(file)?;
    judge_body(file, counts_in(file))
}

// Whether each pool is lent at its full limit.
fn pools_full(
    mins: usize,
    maxs: usize,
    optional: usize,
    levels: usize,
    preferences: usize,
    rows: usize,
) -> bool
    ensures { result ≡ lengths_full mins maxs optional levels preferences rows }
{
    if mins != 64 {
        return false;
    }
    if maxs != 64 {
        return false;
    }
    if optional != 64 {
        return false;
    }
    if levels != 64 {
        return false;
    }
    if preferences != 12800 {
        return false;
    }
    rows == 128
}

// Fills the pools with the lists of a good file, each from the front of its pool, zeros past it.
fn fill_pools(
    file: &[u8],
    counts: FileCounts,
    mins: &mut [u16],
    maxs: &mut [u16],
    optional: &mut [u8],
    levels: &mut [u16],
    preferences: &mut [u16],
    rows: &mut [u64],
)
    requires ranges { file_counts_in_range counts ≡ true }
    requires end { (places_of 5 counts).end ≡ length file.now }
    requires full { let pools = parts mins.old maxs.old optional.old levels.old preferences.old rows.old in
        pools_full pools ≡ true }
    ensures { let filled = parts mins.new maxs.new optional.new
        levels.new preferences.new rows.new in
        filled ≡ padded (lists_in file.now counts) }
{
    let lists = counts.columns();
    fill_words(file, lists.mins, mins);
    fill_words(file, lists.maxs, maxs);
    fill_optional(file, lists.optional, optional);
    fill_words(file, lists.levels, levels);
    fill_words(file, lists.preferences, preferences);
    fill_rows(file, lists.rows, rows);
}

// Reads a day: its counts, and its lists in the lent pools.
pub fn read_day(
    file: &[u8],
    mins: &mut [u16],
    maxs: &mut [u16],
    optional: &mut [u8],
    levels: &mut [u16],
    preferences: &mut [u16],
    rows: &mut [u64],
) -> Result<FileCounts, Refusal>
    ensures { let before = parts mins.old maxs.old optional.old
        levels.old preferences.old rows.old in
        let after = parts mins.new maxs.new optional.new
        levels.new preferences.new rows.new in
        outcome (tells result) after ≡ read_of file.now before }
{
    if !pools_full(
        mins.len(),
        maxs.len(),
        optional.len(),
        levels.len(),
        preferences.len(),
        rows.len(),
    ) {
        return Err(Refusal::Length);
    }
    judge_file(file)?;
    let counts = counts_in(file);
    fill_pools(
        file,
        counts,
        mins,
        maxs,
        optional,
        levels,
        preferences,
        rows,
    );
    Ok(counts)
}
