// The candidates of a new depth, and what a list of rows allows: whether a choice may take a place, beside
// the choices that are decided.
#![tactic(auto)]

pub mod allow;
pub mod asked;
pub mod bucket;
mod critical;
pub mod decision;
mod ends;
mod limits;
pub mod loads;
mod stuck;
