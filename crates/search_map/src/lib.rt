// The rows that a choice is tried against: the own map of a list of rows, and the lookup in any map.
#![tactic(auto)]

mod entry;
pub mod lookup;
pub mod map;
pub mod own_map;
