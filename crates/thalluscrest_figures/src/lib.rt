// The answers of the library's calls as other languages get them: 0 or 01's number, and eight figures.
#![tactic(auto)]

pub mod codes;
pub mod counts;
pub mod crossing;
pub mod day;
pub mod plan;
pub mod refusal;
pub mod search;
