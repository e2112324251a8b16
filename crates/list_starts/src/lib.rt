// What a listing does at a start: the next place that its choice may take, or, at a full start, the plan
// check and the page; whether it goes on after a plan, and what its end tells.
#![tactic(auto)]

pub mod asked;
pub mod full;
pub mod page;
pub mod page_end;
pub mod places;
pub mod ready;
