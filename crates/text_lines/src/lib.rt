// What programs read and print: a number in decimal, a text put into a pool part by part, the lines of
// `plan` and `plans`, and what both share.
#![tactic(auto)]

pub mod number;
pub mod plan_lines;
pub mod plans_lines;
pub mod program;
pub mod put;
