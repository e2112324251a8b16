// The places that a choice may still take: each slot by its number, omission by the number
// after the last slot (a domain).
#![tactic(auto)]

pub mod places;
