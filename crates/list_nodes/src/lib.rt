// The list of plans as definitions, its refusals, and the count of a day's nodes against the budget; and the
// list walked by any eyes that keep every plan in sight: definitions and laws.
#![tactic(auto)]

pub mod judge;
pub mod nodes;
