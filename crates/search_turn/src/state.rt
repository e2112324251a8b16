// What is decided, with each slot's sums and count: the Rust's search state, by value.
ghost use Rattle.std.specs.Prelude.{◌≡◌, true, replicate};
ghost use Rattle.search_candidates.specs.Loads.{loads_lent};
ghost use Rattle.search_turn.specs.steps.Opening.{loads_in};

use search_candidates::decision::UNDECIDED;
use search_candidates::loads::Loads;

// A state of the search: each choice's decision; each slot's sum of min, sum of max and count of choices; the
// depth, whether its candidates are still to be made, and the sum of max of the choices from there on.
#[derive(Clone, Copy)]
pub struct SearchState {
    pub decisions: [u8; 64],
    pub slot_min: [u32; 24],
    pub slot_max: [u32; 24],
    pub sizes: [u32; 24],
    pub depth: usize,
    pub is_new: bool,
    pub remaining: u32,
}

impl SearchState {
    // The state at depth 0, with nothing decided.
    pub fn new(remaining: u32) -> SearchState
        ensures { (result.decisions ≡ replicate 64 254)
            × (result.slot_min ≡ replicate 24 0) × (result.slot_max ≡ replicate 24 0) × (result.sizes ≡ replicate 24 0)
            × (result.depth ≡ 0) × (result.is_new ≡ true) × (result.remaining ≡ remaining) }
    {
        SearchState {
            decisions: [UNDECIDED; 64],
            slot_min: [0u32; 24],
            slot_max: [0u32; 24],
            sizes: [0u32; 24],
            depth: 0,
            is_new: true,
            remaining,
        }
    }

    // The decisions, sums and counts, as candidates are made from them.
    pub fn loads(&self) -> Loads<'_>
        ensures { loads_lent result ≡ loads_in self.now }
    {
        Loads {
            decisions: &self.decisions,
            slot_min: &self.slot_min,
            slot_max: &self.slot_max,
            sizes: &self.sizes,
        }
    }
}

// Where a search stands at a depth: whether its candidates are still to be made, the depth, what is decided, and
// the sum of max of the choices from there on. Lists of any length may stand in it.
#[derive(Clone, Copy)]
pub struct AtDepth<'a> {
    pub is_new: bool,
    pub depth: usize,
    pub remaining: u32,
    pub loads: Loads<'a>,
}
