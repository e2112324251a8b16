// Weights for the weight tables that fit the day, by a small linear program.
#![tactic(auto)]

pub mod absent;
pub mod fit;
mod kinds;
mod lightest;
pub mod simplex;
