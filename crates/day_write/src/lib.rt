// The writer of day files: a day's `FileCounts` and lists, in definitions a `FileDay`, to bytes.
#![tactic(auto)]

mod put;
mod word;
pub mod write;
