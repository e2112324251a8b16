// The rows that a reduction writes, row by row: given rows turned, the clash of two slots, a pair's row, and
// the free end that they go into.
#![tactic(auto)]

pub mod free;
pub mod pair;
pub mod turn;
