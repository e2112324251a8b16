// The plan check: a plan's bytes, what rows ask of them, and whether a plan keeps a day's omissions, each
// slot's sums and every row.
#![tactic(auto)]

pub mod day;
pub mod feasible;
pub mod kept;
pub mod plan;
pub mod plan_check;
pub mod rows;
pub mod sentences;
