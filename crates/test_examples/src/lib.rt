// No code: document 01's worked examples K1 to K10, computed by the checker from the definitions, in one
// table under one claim.
#![tactic(auto)]
