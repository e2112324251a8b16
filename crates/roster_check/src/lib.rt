// The roster check: whether a roster keeps each chooser's slots, each choice's seats and every row, and the
// highest preference that it meets.
#![tactic(auto)]

mod highest;
mod judge;
pub mod roster_check;
mod seats;
