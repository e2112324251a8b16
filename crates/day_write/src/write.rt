// Writing a day file: the day is judged first, then its bytes are put into the lent pool.
ghost use Rattle.std.specs.Prelude.{◌≡◌, true, length};
ghost use Rattle.base_lists.specs.Pool.{pad};
ghost use Rattle.day_rows.specs.Told.{done, good, outcome, tells};
ghost use Rattle.day_file.specs.FileDay.{file_day_lent, file_counts_in_range, file_lengths_fit, day_rows_judged};
ghost use Rattle.day_file.specs.File.{bytes_of, longest_file};
ghost use Rattle.day_write.specs.Calls.{lists_judged, day_judged, write_of};

use super::put::{put_choices, put_head, put_rows, put_words};
use day_file::day::FileDay;
use day_file::word::LONGEST_FILE;
use day_rows::check::{Takes, check_each_row};
use day_rows::lists::{flags_fit, last_level, levels_rise, preferences_keep};
use day_rows::refusal::Refusal;

// Whether each list of a day is as long as its counts give.
fn lengths_keep(day: &FileDay) -> bool
    requires { file_counts_in_range day.now.counts ≡ true }
    ensures { let day = file_day_lent day.now in result ≡ file_lengths_fit day.counts day.lists }
{
    let counts = day.counts;
    if day.mins.len() != counts.choices {
        return false;
    }
    if day.maxs.len() != counts.choices {
        return false;
    }
    if day.optional.len() != counts.choices {
        return false;
    }
    if day.levels.len() != counts.levels {
        return false;
    }
    if day.preferences.len() != counts.choosers * counts.choices {
        return false;
    }
    day.rows.len() == counts.rows
}

// A day judged with no pool touched: numbers 1, 2, 3, 4, 5, 13, 'Lowest number first'.
fn judge_day(day: &FileDay, room: usize) -> Result<(), Refusal>
    ensures { tells result ≡ day_judged (file_day_lent day.now) room }
{
    if !day.counts.in_range() {
        return Err(Refusal::Count);
    }
    if !lengths_keep(day) {
        return Err(Refusal::Length);
    }
    if room != LONGEST_FILE {
        return Err(Refusal::Length);
    }
    judge_lists(day)
}

// The lists of a day, as long as their counts give, judged: numbers 3, 4, 5, 13.
fn judge_lists(day: &FileDay) -> Result<(), Refusal>
    ensures { tells result ≡ lists_judged (file_day_lent day.now) }
{
    if !levels_rise(day.levels) {
        return Err(Refusal::Levels);
    }
    if !preferences_keep(last_level(day.levels), day.preferences) {
        return Err(Refusal::Preference);
    }
    check_each_row(day.counts.for_rows(), Takes::Given, day.rows)?;
    if !flags_fit(day.optional) {
        return Err(Refusal::Optional);
    }
    Ok(())
}

// Puts the bytes of a day that was judged good into the pool, zeros past them; the answer is how many they
// are.
fn put_day(day: &FileDay, pool: &mut [u8]) -> usize
    requires ranges { file_counts_in_range day.now.counts ≡ true }
    requires lengths { let day = file_day_lent day.now in file_lengths_fit day.counts day.lists ≡ true }
    requires rows { day_rows_judged (file_day_lent day.now) ≡ good }
    requires room { length pool.old ≡ longest_file }
    ensures { let file = bytes_of (file_day_lent day.now) in
        outcome (done result) pool.new ≡ outcome (done (length file)) (pad longest_file file) }
{
    pool.fill(0);
    put_head(pool, day.counts);
    let levels_at = put_choices(pool, day);
    let preferences_at = put_words(pool, levels_at, day.levels);
    let rows_at = put_words(pool, preferences_at, day.preferences);
    put_rows(pool, rows_at, day.rows)
}

// Writes a day's file into the lent pool, or refuses and leaves the pool untouched; the answer is how many
// bytes of the pool the file takes.
pub fn write_day(day: &FileDay, pool: &mut [u8]) -> Result<usize, Refusal>
    ensures { outcome (tells result) pool.new ≡ write_of (file_day_lent day.now) pool.old }
{
    judge_day(day, pool.len())?;
    Ok(put_day(day, pool))
}
