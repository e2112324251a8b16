// The search as definitions, in specs/: the walk of one pass, passes one after the other, what one pass is;
// and their laws, in proofs/. The only code is what a pass is lent.
#![tactic(auto)]

pub mod pass;
