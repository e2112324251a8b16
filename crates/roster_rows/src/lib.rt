// A roster's rows and cells: the rows of kinds 10 to 13, what cells must name, the slots of a chooser's
// cells, and the seats of a choice.
#![tactic(auto)]

pub mod assignment;
mod cells;
pub mod judge;
pub mod roster;
pub mod seats;
