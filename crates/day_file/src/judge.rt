// The tests of a file's body, on its bytes.
ghost use Rattle.std.specs.Prelude.{◌≡◌, ◌+◌, ◌-◌, ◌≤◌, leb, ltb, get_or};
ghost use Rattle.base_lists.specs.Below.{all_below};
ghost use Rattle.day_rows.specs.Check.{rows_judged};
ghost use Rattle.day_rows.specs.Told.{tells};
ghost use Rattle.day_rows.specs.declared.check.Takes.TheVariants as takes;
ghost use Rattle.day_file.specs.File.{word_at};
ghost use Rattle.day_file.specs.steps.Columns.{Stands, place, rows_of};

use super::counts::Column;
use super::fill::put_rows;
use super::word::word_at;
use day_rows::check::{Counts, Takes};
use day_rows::refusal::Refusal;

// Whether each optional byte of a file is 0 or 1.
pub(crate) fn optional_in(file: &[u8], flags: Column) -> bool
    requires { Stands file.now flags 1 }
    ensures { result ≡ all_below flags.count (λ i. leb (get_or file.now (place flags i) 0) 1) }
{
    for i in 0..flags.count {
        if 1 < file[flags.at + flags.step * i] {
            return false;
        }
    }
    true
}

// Whether the levels of a file rise strictly.
pub(crate) fn levels_in(file: &[u8], levels: Column) -> bool
    requires { Stands file.now levels 2 }
    ensures { let bytes = file.now in
        result ≡ all_below (levels.count - 1)
        (λ i. ltb (word_at bytes (place levels i)) (word_at bytes (place levels (i + 1)))) }
{
    for i in 0..levels.count.saturating_sub(1) {
        let level = word_at(file, levels.at + levels.step * i);
        let next = word_at(file, levels.at + levels.step * (i + 1));
        if next <= level {
            return false;
        }
    }
    true
}

// Whether each preference of a file is at most the last level.
pub(crate) fn preferences_in(file: &[u8], preferences: Column, last: u16) -> bool
    requires { Stands file.now preferences 2 }
    ensures { result ≡ all_below preferences.count (λ i. leb (word_at file.now (place preferences i)) last) }
{
    for i in 0..preferences.count {
        if last < word_at(file, preferences.at + preferences.step * i) {
            return false;
        }
    }
    true
}

// The row check on the rows of a file: the one table judges them.
pub(crate) fn rows_in(file: &[u8], rows: Column, counts: Counts) -> Result<(), Refusal>
    requires few { rows.count ≤ 128 }
    requires within { Stands file.now rows 6 }
    ensures { tells result ≡ rows_judged counts takes.Given (rows_of file.now rows) }
{
    let mut pool = [0u64; 128];
    put_rows(file, rows, &mut pool);
    day_rows::check::check_each_row(counts, Takes::Given, &pool[..rows.count])
}
