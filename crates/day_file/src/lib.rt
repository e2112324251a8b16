// The day file: a day's counts (`FileCounts`) and lists as bytes, in definitions a `FileDay`, and the reader.
#![tactic(auto)]

pub mod counts;
pub mod day;
pub mod file_words;
mod fill;
mod judge;
pub mod read;
pub mod word;
