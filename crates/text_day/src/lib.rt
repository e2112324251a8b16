// What the programs' texts share: the pools that a file's day is read into, the search's rows of its reduction,
// and a refusal's line.
#![tactic(auto)]

pub mod pools;
pub mod refusal;
pub mod search_list;
