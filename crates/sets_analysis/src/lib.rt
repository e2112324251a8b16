// Critical sets: which are kept, and their bound; in proofs/ also the laws of kept sets, simplifying and
// levels' lists.
#![tactic(auto)]

pub mod analysis;
mod bound;
mod candidate;
pub mod day;
mod kept;
pub mod level_tests;
pub mod limits;
mod simplified;
