// The text of the program `plans`, made whole from a file and three numbers.
#![tactic(auto)]

pub mod text;
