// What crates with lent pools share: a byte set among a list's first ones, and a choice's flag. The laws of a pool
// that is cleared past its result stand in proofs/.
#![tactic(auto)]

pub mod insertion;
pub mod number;
