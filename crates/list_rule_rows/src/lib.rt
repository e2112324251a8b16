// What the rows leave of the domains: a rule a kind, and every row in order.
#![tactic(auto)]

mod moves;
pub mod narrow;
pub mod rows;
mod sides;
