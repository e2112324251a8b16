// Rows that are decided once a choice has its place: with which choice, what they leave of its places, and a
// day's rows in that order.
#![tactic(auto)]

pub mod last;
pub mod leaves;
pub mod row_order;
