// A roster as its rows are asked of it.

// A roster: how many choices, slots and choosers its day has, the plan, and the cells chooser by chooser. Any
// numbers may stand in it: what has no roster's shape keeps no row.
#[derive(Clone, Copy)]
pub struct Roster<'a> {
    pub choices: usize,
    pub slots: usize,
    pub choosers: usize,
    pub plan: &'a [u8],
    pub cells: &'a [u8],
}
