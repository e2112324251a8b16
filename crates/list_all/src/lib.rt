// All the plans of a day (02, request 03): every feasible plan in dictionary order, page by page, with the
// total.
#![tactic(auto)]

pub mod list_plans;
mod plans;
