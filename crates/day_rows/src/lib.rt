// A day's rows and lists: the rows' columns, the table of the sixteen kinds, the row check, the tests of a
// day's levels, preferences and optional bytes, and the numbers that every call hands back.
#![tactic(auto)]

pub mod check;
pub mod kind;
pub mod lists;
pub mod number;
pub mod op;
pub mod refusal;
pub mod row;
pub mod table;
