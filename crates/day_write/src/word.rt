// Numbers of two bytes, big-endian, and rows of six, put into a pool.
ghost use Rattle.std.specs.Prelude.{◌≡◌, ◌+◌, ◌<◌, length};
ghost use Rattle.std.proofs.lemmas.List.Edits.{sets};
ghost use Rattle.day_file.specs.File.{word, row_bytes};
ghost use Rattle.day_write.specs.steps.Held.{BytesHold};

use day_file::word::flip_sign_bit;
use day_rows::row::Row;

// Puts a number's two bytes from a place on.
pub(crate) fn put_word(pool: &mut [u8], at: usize, v: u16)
    requires { at + 1 < length pool.old }
    ensures { pool.new ≡ sets pool.old at (word v) }
{
    pool[at] = (v / 256) as u8;
    pool[at + 1] = (v % 256) as u8;
}

// Puts a row's six bytes from a place on. Its kind and its left column fit a byte each.
pub(crate) fn put_row(pool: &mut [u8], at: usize, number: u64)
    requires room { at + 5 < length pool.old }
    requires held { BytesHold number }
    ensures { pool.new ≡ sets pool.old at (row_bytes number) }
{
    let row = Row::from(number);
    pool[at] = row.kind as u8;
    pool[at + 1] = row.left as u8;
    put_word(pool, at + 2, row.right);
    put_word(pool, at + 4, flip_sign_bit(row.extra));
}
