// What programs in other languages call: numbers and slices alone, each call one of the library's.
#![tactic(auto)]

mod days;
mod plans;
mod searches;
mod sets;
