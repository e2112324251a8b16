// One search of a record: the call, and whether its answer is the one that the record tells.
#![tactic(auto)]

pub mod answer;
pub mod call;
pub mod records;
