// The rows that a reduction adds: the same-choosers groups of kind 10 with the rows of kinds 11 and 12 copied
// to their members, and the kind 4 pairs of each group and of each chooser's list of kind 11 choices.
#![tactic(auto)]

pub mod copies;
pub mod groups;
pub mod pairs;
