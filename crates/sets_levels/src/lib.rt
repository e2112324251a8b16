// The list of a level: the critical sets that a search at that limit tests.
#![tactic(auto)]

pub mod level_list;
