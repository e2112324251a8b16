// What each slot's sums and a row's limit leave of the places that choices may still take.
#![tactic(auto)]

pub mod limits;
mod slot_sums;
pub mod sums;
