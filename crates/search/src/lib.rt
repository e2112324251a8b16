// The search as a call: its refusals, its sets, and its passes from the start up, each at its limit; what its
// answers say is in proofs/.
#![tactic(auto)]

pub mod basis;
mod order;
pub mod pass;
mod passes;
pub mod search;
mod sets;
