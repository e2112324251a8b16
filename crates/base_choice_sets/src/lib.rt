// Sets of choices, each one number: bit c tells whether choice c is in it.
#![tactic(auto)]

pub mod reach;
pub mod set;
