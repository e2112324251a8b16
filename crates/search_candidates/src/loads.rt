// What a slot has of min or max, and how many choices.
ghost use Rattle.std.specs.Prelude.{◌≡◌, ◌+◌, get_or};

// What is decided of each choice; and each slot's sum of min, sum of max and count of choices.
#[derive(Clone, Copy)]
pub struct Loads<'a> {
    pub decisions: &'a [u8],
    pub slot_min: &'a [u32],
    pub slot_max: &'a [u32],
    pub sizes: &'a [u32],
}

// A slot's sum of min or max, or its count of the decided choices; 0 past the list.
pub(crate) fn load(loads: &[u32], slot: usize) -> u32
    ensures { result ≡ get_or loads.now slot 0 }
{
    if loads.len() <= slot {
        return 0;
    }
    loads[slot]
}

// Two sums together, at 64 bits, so that nothing is lost.
pub(crate) fn together(one: u32, other: u32) -> usize
    ensures { result ≡ one + other }
{
    one as usize + other as usize
}
