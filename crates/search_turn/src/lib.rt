// What is decided along a pass, and its turns: the state by value, the candidates of a new depth as a pass
// asks for them, and what ends a pass at depth C.
#![tactic(auto)]

mod amount;
mod asked;
pub mod depth;
mod draw;
pub mod plan;
pub mod shape;
pub mod sight;
pub mod state;
pub mod turn;
