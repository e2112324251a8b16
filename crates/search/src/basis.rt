// What the passes of a call stand on.
use plan_check::day::Day;
use search_map::map::Map;

// What every pass of a call is lent, or has its order and its sets from: the sets are the first of two pools,
// so many of them.
#[derive(Clone, Copy)]
pub struct Basis<'a> {
    pub full: bool,
    pub day: Day<'a>,
    pub map: Map<'a, 'a>,
    pub whole: &'a [u16],
    pub orders: &'a [u8],
    pub levels: &'a [u16],
    pub count: usize,
    pub masks: &'a [u64],
    pub set_levels: &'a [u16],
    pub draws: &'a [u32],
}
