// One pass of the search.
#![tactic(auto)]

pub mod pass;
