// Parts of a record whose length it tells itself: the first n entries of a pool read from a place on or
// compared, and the place after them.
ghost use Rattle.std.specs.Prelude.{◌≡◌, take, drop};
ghost use Rattle.std.specs.List.{list_all};
ghost use Rattle.test_cases.specs.steps.Readings.{Agreed};

use super::entry::{Entry, Reading};
use super::{first, plus, read_entries};

// The n entries of a list from a place on, or what it has of them.
pub fn part<T>(list: &[T], at: usize, n: usize) -> &[T]
    ensures { result.now ≡ take n (drop at list.now) }
{
    if list.len() < at {
        return first(list, 0);
    }
    first(&list[at..], n)
}

// The first n words of a pool read from a place on.
pub fn words(bytes: &[u8], at: usize, n: usize, pool: &mut [u16]) {
    if n <= pool.len() {
        super::read_words(bytes, at, &mut pool[..n]);
    }
}

// The n words of a pool from a place of its own on, read from a place of the record on.
pub fn words_to(bytes: &[u8], at: usize, n: usize, pool: &mut [u16], to: usize) {
    if to <= pool.len() {
        words(bytes, at, n, &mut pool[to..]);
    }
}

// The first n rows of a pool read from a place on.
pub fn rows(bytes: &[u8], at: usize, n: usize, pool: &mut [u64]) {
    if n <= pool.len() {
        super::read_numbers(bytes, at, &mut pool[..n]);
    }
}

// The first n bytes of a pool read from a place on.
pub fn few_bytes(bytes: &[u8], at: usize, n: usize, pool: &mut [u8]) {
    if n <= pool.len() {
        super::read_bytes(bytes, at, &mut pool[..n]);
    }
}

// Fills a pool with the draws from a place on.
pub fn draws(bytes: &[u8], from: usize, pool: &mut [u32]) {
    read_entries(bytes, from, 4, pool);
}

// Fills a list with 0, 1, 2 .., and with 0 where that is no word.
pub fn count_up(whole: &mut [u16]) {
    for (i, x) in whole.iter_mut().enumerate() {
        *x = u16::try_from(i).unwrap_or(0);
    }
}

// The place after so many entries of so many bytes.
pub fn after(at: usize, n: usize, wide: usize) -> usize {
    if 65_536 < n {
        return at;
    }
    if 255 < wide {
        return at;
    }
    plus(at, n * wide)
}

// Whether every entry of a pool is this one.
pub fn all_are<T: Copy + PartialEq>(pool: &[T], held: T) -> bool
    ensures { result ≡ list_all (λ x. T.eq x held) pool.now }
{
    pool.iter().all(|x| *x == held)
}

// Whether the first n entries of a pool are those from a place on, each so many bytes after the one before it,
// and all after them are another.
pub fn entries_agree<T: Entry>(
    bytes: &[u8],
    from: usize,
    apart: usize,
    n: usize,
    pool: &[T],
    past: T,
) -> bool {
    let mut at = from;
    for (i, x) in pool.iter().enumerate() {
        let expected = if i < n { T::at(bytes, at) } else { past };
        if *x != expected {
            return false;
        }
        at = plus(at, apart);
    }
    true
}

// The same of entries of any type, as the lent value reads them: a loop of its own, as `read_entries_by`.
pub fn entries_agree_by<T: Copy + PartialEq, R: Reading<T>>(
    bytes: &[u8],
    from: usize,
    apart: usize,
    reading: &R,
    n: usize,
    pool: &[T],
    past: T,
) -> bool
    ensures { Agreed (R.MayRead reading.now bytes.now) T.eq past apart from n pool.now result }
{
    let mut at = from;
    for (i, x) in pool.iter().enumerate() {
        let expected = if i < n { reading.read(bytes, at) } else { past };
        if *x != expected {
            return false;
        }
        at = plus(at, apart);
    }
    true
}

// Whether the first n words of a pool are those from a place on, and all after them are another.
pub fn words_agree(bytes: &[u8], from: usize, n: usize, pool: &[u16], past: u16) -> bool {
    entries_agree(bytes, from, 2, n, pool, past)
}

// Whether the first n rows of a pool are those from a place on, and all after them are 0.
pub fn rows_agree(bytes: &[u8], from: usize, n: usize, pool: &[u64]) -> bool {
    entries_agree(bytes, from, 8, n, pool, 0)
}
