// What the candidates of a new depth are made from.
use super::loads::Loads;
use day_rows::check::Counts;

// A new depth: its choice with min, max and optional flag; whether it is the last undecided one; 'remaining
// max (this choice included)'; and the draw for omission's place.
#[derive(Clone, Copy)]
pub struct Depth {
    pub choice: usize,
    pub min: u16,
    pub max: u16,
    pub optional: u8,
    pub last: bool,
    pub remaining: u32,
    pub draw: u32,
}

// The depth, the list of rows with the numbers of those that are looked up for its choice, the critical sets
// and what is decided.
#[derive(Clone, Copy)]
pub struct Asked<'a> {
    pub counts: Counts,
    pub depth: Depth,
    pub rows: &'a [u64],
    pub numbers: &'a [u16],
    pub sets: &'a [u64],
    pub loads: Loads<'a>,
}
