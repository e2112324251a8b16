// How many choices the slots have at least and fewer than how many, and what that leaves of the domains.
#![tactic(auto)]

pub mod bounds;
mod counts;
mod limits;
mod rooms;
pub mod rule;
mod wants;
