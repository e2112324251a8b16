// What the walk looks at before it goes on from a start: all narrowing rules, and the places that the next
// choice may take.
#![tactic(auto)]

mod alive;
mod decided;
pub mod look;
pub mod open;
pub mod see;
mod weigh;
