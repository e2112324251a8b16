// No code: what the planner promises, on one page (specs/Promises.antt), and its proof by citation.
#![tactic(auto)]
