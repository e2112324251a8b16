// Filling a pool from a file: the values from the front, zero past them.
// Bytes, words and rows have a pair of functions each, since each kind of entry is read in its own way.
ghost use Rattle.std.specs.Prelude.{◌≡◌, ◌≤◌, length, take};
ghost use Rattle.base_lists.specs.Pool.{pad};
ghost use Rattle.day_file.specs.steps.Columns.{Stands, flags_of, words_of, rows_of};

use super::counts::Column;
use super::word::{row_at, word_at};

// Puts the words of a column into the front of a pool.
fn put_words(file: &[u8], words: Column, pool: &mut [u16])
    requires room { words.count ≤ length pool.old }
    requires within { Stands file.now words 2 }
    ensures { take words.count pool.new ≡ words_of file.now words }
{
    for i in 0..words.count {
        pool[i] = word_at(file, words.at + words.step * i);
    }
}

// Fills a pool of words: those of a column, then zeros.
pub(crate) fn fill_words(file: &[u8], words: Column, pool: &mut [u16])
    requires room { words.count ≤ length pool.old }
    requires within { Stands file.now words 2 }
    ensures { pool.new ≡ pad (length pool.old) (words_of file.now words) }
{
    put_words(file, words, pool);
    pool[words.count..].fill(0);
}

// Puts the bytes of a column into the front of a pool.
fn put_optional(file: &[u8], flags: Column, pool: &mut [u8])
    requires room { flags.count ≤ length pool.old }
    requires within { Stands file.now flags 1 }
    ensures { take flags.count pool.new ≡ flags_of file.now flags }
{
    for i in 0..flags.count {
        pool[i] = file[flags.at + flags.step * i];
    }
}

// Fills a pool of optional bytes: those of a column, then zeros.
pub(crate) fn fill_optional(file: &[u8], flags: Column, pool: &mut [u8])
    requires room { flags.count ≤ length pool.old }
    requires within { Stands file.now flags 1 }
    ensures { pool.new ≡ pad (length pool.old) (flags_of file.now flags) }
{
    put_optional(file, flags, pool);
    pool[flags.count..].fill(0);
}

// Puts the rows of a column into the front of a pool.
pub(crate) fn put_rows(file: &[u8], rows: Column, pool: &mut [u64])
    requires room { rows.count ≤ length pool.old }
    requires within { Stands file.now rows 6 }
    ensures { take rows.count pool.new ≡ rows_of file.now rows }
{
    for i in 0..rows.count {
        pool[i] = row_at(file, rows.at + rows.step * i);
    }
}

// Fills a pool of rows: those of a column, then zeros.
pub(crate) fn fill_rows(file: &[u8], rows: Column, pool: &mut [u64])
    requires room { rows.count ≤ length pool.old }
    requires within { Stands file.now rows 6 }
    ensures { pool.new ≡ pad (length pool.old) (rows_of file.now rows) }
{
    put_rows(file, rows, pool);
    pool[rows.count..].fill(0);
}
