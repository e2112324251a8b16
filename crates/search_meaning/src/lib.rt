// What a search is given and what it answers, and the refusals that it decides alone; the search as a call,
// by its definition, and demand 3, that the full search settles a day, in specs/; its proof in proofs/.
#![tactic(auto)]

pub mod answer;
pub mod counts;
pub mod given;
pub mod judge;
pub mod settings;

// The map that a search is given, for who calls one.
pub use search_map::map;
