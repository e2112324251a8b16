// Twin slots: slots that are alike for the choices that have no place yet.
#![tactic(auto)]

mod names;
pub mod twins;
