// What the weight tables leave of the domains.
#![tactic(auto)]

pub mod figures;
pub mod rule;
mod weighed;
