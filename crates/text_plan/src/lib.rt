// The text of the program `plan`, made whole from a file.
#![tactic(auto)]

pub mod text;
