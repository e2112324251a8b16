// From one pass of a search to the next: its limit, its turns, and what its end means for the call.
#![tactic(auto)]

pub mod levels;
pub mod step;
