// Files of cases with their expected answers, as the oracle writes them: records, each with the length of its
// rest before it; and what the programs that replay them share.
// Reading past a record's end gives 0, so that a damaged file shows as a difference.
#![tactic(auto)]

ghost use Rattle.std.specs.Prelude.{◌≡◌, ◌+◌, ◌%◌, ◌^◌, take, drop, slice_index};
ghost use Rattle.test_cases.specs.steps.Alike.{alike};
ghost use Rattle.test_cases.specs.steps.Buffers.{filled};
ghost use Rattle.test_cases.specs.steps.Numbers.{word_at, number_at};
ghost use Rattle.test_cases.specs.steps.Readings.{EachRead};
ghost use Rattle.test_cases.specs.steps.Tallies.{counted, closed};

use entry::{Entry, Reading};
use std::fs::{File, Files};
use std::{fs, io};
use text_lines::program::read_full;

pub mod days;
pub mod entry;
pub mod pages;
pub mod parts;
pub mod replay;
#[cfg(test)]
mod tests;
pub mod texts;

// What a byte of a lent pool holds before a call, so that what the call left alone shows.
pub const BLANK: u8 = 119;

// What comes next in a file: a record of a length, or the file's end, or a record that is cut short or too
// long for the buffer.
#[derive(Clone, Copy)]
enum Next {
    Record(usize),
    End,
    Broken,
}

// How many cases were compared and how many differed, and the number of the first that did.
#[derive(Clone, Copy)]
pub struct Tally {
    pub cases: u64,
    pub differ: u64,
    pub first: u64,
}

impl Tally {
    // The tally before the first case.
    pub fn new() -> Tally
        ensures { (result.cases ≡ 0) × (result.differ ≡ 0) × (result.first ≡ 0) }
    {
        Tally {
            cases: 0,
            differ: 0,
            first: 0,
        }
    }

    // The tally with one case more, and one difference more where the case's answer isn't the expected one.
    pub fn with(self, agrees: bool) -> Tally
        ensures { result ≡ counted self agrees }
    {
        let cases = self.cases.wrapping_add(1);
        if agrees {
            return Tally {
                cases,
                differ: self.differ,
                first: self.first,
            };
        }
        if self.differ == 0 {
            return Tally {
                cases,
                differ: 1,
                first: self.cases,
            };
        }
        Tally {
            cases,
            differ: self.differ.wrapping_add(1),
            first: self.first,
        }
    }

    // Prints the tally's line: the name, how many agreed, how many differ, and which case was the first to
    // differ.
    pub fn tell(self, rt: &impl Print, name: &[u8]) -> io::Result<()> {
        let agreed = self.cases.wrapping_sub(self.differ);
        let differ = self.differ;
        let first = self.first;
        rt.write_all(name)?;
        print!(rt; " {agreed} agreed, {differ} differ")?;
        if 0 < differ {
            print!(rt; ", first at case {first}")?;
        }
        rt.write_all(b"\n")
    }
}

// The byte at a place, 0 past the end.
pub fn byte(bytes: &[u8], at: usize) -> u8
    ensures { result ≡ slice_index bytes.now at }
{
    if bytes.len() <= at {
        return 0;
    }
    bytes[at]
}

// The two bytes from a place on, high byte first.
pub fn word(bytes: &[u8], at: usize) -> u16
    ensures { result ≡ word_at bytes.now at }
{
    if 0xffff_ffff < at {
        return 0;
    }
    u16::from(byte(bytes, at)) * 256 + u16::from(byte(bytes, at + 1))
}

// The eight bytes from a place on, high byte first.
pub fn number(bytes: &[u8], at: usize) -> u64
    ensures { result ≡ number_at bytes.now at }
{
    if 0xffff_ffff < at {
        return 0;
    }
    u64::from(word(bytes, at)) * 0x1_0000_0000_0000
        + u64::from(word(bytes, at + 2)) * 0x1_0000_0000
        + u64::from(word(bytes, at + 4)) * 0x1_0000
        + u64::from(word(bytes, at + 6))
}

// Opens a file of the folder that the program runs in; none where it can't be opened.
pub fn open_read(rt: &impl Files<File = File>, name: &[u8]) -> Option<File> {
    let name = std::str::from_utf8(name).ok()?;
    fs::open(rt, name).ok()
}

// Reads the next record's bytes to the buffer's front.
fn read_next(file: &mut File, buffer: &mut [u8]) -> Next {
    let mut head = [0u8; 4];
    let got = read_full(file, &mut head);
    if got == 0 {
        return Next::End;
    }
    if got < 4 {
        return Next::Broken;
    }
    let size = length_of(&head);
    if buffer.len() < size {
        return Next::Broken;
    }
    let body = read_full(file, &mut buffer[..size]);
    if body < size {
        return Next::Broken;
    }
    Next::Record(size)
}

// The length that a record's first four bytes give.
fn length_of(head: &[u8]) -> usize {
    usize::from(word(head, 0)) * 65_536 + usize::from(word(head, 2))
}

// The tally with what the end of the file adds: a broken record is a difference.
fn ended(next: Next, tally: Tally) -> Tally
    ensures { result ≡ closed next tally }
{
    match next {
        Next::Record(_) | Next::End => tally,
        Next::Broken => tally.with(false),
    }
}

// Whether n bytes of one list, from a place on, are those of another from another place on; past its end a
// list has zeros.
pub fn same(one: &[u8], from: usize, other: &[u8], at: usize, n: usize) -> bool
    ensures { result ≡ alike one.now from other.now at n }
{
    for i in 0..n {
        if byte(one, plus(from, i)) != byte(other, plus(at, i)) {
            return false;
        }
    }
    true
}

// The sum of two places; it wraps where no list reaches.
pub fn plus(a: usize, b: usize) -> usize
    ensures { result ≡ (a + b) % 2 ^ 64 }
{
    a.wrapping_add(b)
}

// Fills a list with the entries from a place on, each so many bytes after the one before it.
pub fn read_entries<T: Entry>(bytes: &[u8], from: usize, apart: usize, entries: &mut [T]) {
    let mut at = from;
    for x in entries.iter_mut() {
        *x = T::at(bytes, at);
        at = plus(at, apart);
    }
}

// The same of entries of any type, as the lent value reads them: a loop of its own, so that what replays run
// stays as it was.
pub fn read_entries_by<T: Copy, R: Reading<T>>(
    bytes: &[u8],
    from: usize,
    size: usize,
    reading: &R,
    entries: &mut [T],
)
    ensures { EachRead (R.MayRead reading.now bytes.now) size from entries.new }
{
    let mut at = from;
    for x in entries.iter_mut() {
        *x = reading.read(bytes, at);
        at = plus(at, size);
    }
}

// Fills a list with the words from a place on.
pub fn read_words(bytes: &[u8], from: usize, words: &mut [u16]) {
    read_entries(bytes, from, 2, words);
}

// Fills a list with the bytes from a place on.
pub fn read_bytes(bytes: &[u8], from: usize, out: &mut [u8]) {
    read_entries(bytes, from, 1, out);
}

// Fills a list with the numbers of eight bytes from a place on: rows, as a pool holds them.
pub fn read_numbers(bytes: &[u8], from: usize, numbers: &mut [u64]) {
    read_entries(bytes, from, 8, numbers);
}

// The first n entries of a list, or all of them: a pool's part that a call is lent, with no test at each
// caller.
pub fn first<T>(list: &[T], n: usize) -> &[T]
    ensures { result.now ≡ take n list.now }
{
    if list.len() < n {
        return list;
    }
    &list[..n]
}

// Whether every byte of a pool from a place on is this one: what a call has to leave, or to clear.
pub fn is_filled(bytes: &[u8], from: usize, byte: u8) -> bool
    ensures { result ≡ filled byte (drop from bytes.now) }
{
    for i in from..bytes.len() {
        if bytes[i] != byte {
            return false;
        }
    }
    true
}
