// What one pass of the search is lent.
use plan_check::day::Day;
use search_map::map::Map;

// Full or as the Rust; the day; the map and the whole list of row numbers; the choices in the order of the
// pass; the critical sets of its limit; the draws.
#[derive(Clone, Copy)]
pub struct Lent<'a> {
    pub full: bool,
    pub day: Day<'a>,
    pub map: Map<'a, 'a>,
    pub whole: &'a [u16],
    pub order: &'a [u8],
    pub sets: &'a [u64],
    pub draws: &'a [u32],
}
