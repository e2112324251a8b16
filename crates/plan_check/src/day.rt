// A day as plan check, search and list are lent it.
use day_rows::check::Counts;

// A day's counts, each choice's minimum, maximum and optional flag, and the rows that hold. Any numbers may
// stand in it: each call judges the day that it is lent.
#[derive(Clone, Copy)]
pub struct Day<'a> {
    pub counts: Counts,
    pub mins: &'a [u16],
    pub maxs: &'a [u16],
    pub optional: &'a [u8],
    pub rows: &'a [u64],
}
