// No code: the definitions of plain lists and numbers that every other crate's contracts use, in specs/, and
// their laws, in proofs/.
#![tactic(auto)]
