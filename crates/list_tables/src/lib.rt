// The weight tables: the least weight of a set of choices that fills what a slot lacks, and of a
// set of so many of the choices.
#![tactic(auto)]

pub mod entry;
pub mod fill;
pub mod lightest_entry;
pub mod lightest_fill;
pub mod rows;
pub mod shape;
pub mod weight;
