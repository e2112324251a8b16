// A day planned with its own map by the full search.
#![tactic(auto)]

pub mod given;
pub mod plan;
pub mod settings;
mod whole;
