// A day as a file carries it, lent.
use super::counts::FileCounts;

// A day's counts and its lists, preferences chooser by chooser. Any numbers may stand in it: writing judges
// the day that it is lent.
#[derive(Clone, Copy)]
pub struct FileDay<'a> {
    pub counts: FileCounts,
    pub mins: &'a [u16],
    pub maxs: &'a [u16],
    pub optional: &'a [u8],
    pub levels: &'a [u16],
    pub preferences: &'a [u16],
    pub rows: &'a [u64],
}
