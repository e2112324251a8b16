// The candidates of a new depth, made in its own part of a lent list.
ghost use Rattle.std.specs.Prelude.{◌≡◌};
ghost use Rattle.search_map.specs.Map.{looked_up};
ghost use Rattle.search_candidates.specs.Loads.{loads_lent};
ghost use Rattle.search_candidates.specs.Bucket.{asked_of, written};
ghost use Rattle.search_rules.specs.Pass.{pass_lent};
ghost use Rattle.search_turn.specs.steps.Opening.{open_of, opens_at, opening, opening_of};

use super::asked::depth_at;
use super::draw::draw_after;
use super::state::AtDepth;
use search_candidates::asked::{Asked, Depth};
use search_candidates::bucket::{Filled, fill};
use search_candidates::loads::Loads;
use search_map::map::rows_of;
use search_rules::pass::Lent;

// Whether candidates are made: the depth is new, and the lists are those of 65 depths.
fn opens(new: bool, depth: usize, pool: usize, next: usize, end: usize) -> bool
    ensures { result ≡ opens_at new depth pool next end }
{
    if !new {
        return false;
    }
    if 64 < depth {
        return false;
    }
    if pool != 1625 {
        return false;
    }
    if next != 65 {
        return false;
    }
    end == 65
}

// The candidates of a new depth, written at the front of a lent list; at depth C there are none.
fn open_depth(lent: &Lent, loads: Loads, depth: usize, asked: Depth, bucket: &mut [u8]) -> Filled
    ensures { let lent = pass_lent lent.now in
        let looked = looked_up lent.map lent.whole asked.choice in
        let depth_asked = asked_of lent.day.counts asked lent.day.rows looked lent.sets (loads_lent loads.entry) in
        written result.count result.drew bucket.new ≡ open_of depth_asked depth bucket.old }
{
    if lent.day.counts.choices <= depth {
        return Filled {
            count: 0,
            drew: false,
        };
    }
    let candidates = Asked {
        counts: lent.day.counts,
        depth: asked,
        rows: lent.day.rows,
        numbers: rows_of(&lent.map, lent.whole, asked.choice),
        sets: lent.sets,
        loads,
    };
    fill(&candidates, bucket)
}

// The candidates of a new depth are made in its own 25 entries, those of another are as they were left; the
// answer is the place of the next draw.
pub fn open_if_new(
    lent: &Lent,
    at: &AtDepth,
    draw: usize,
    candidates: &mut [u8],
    next: &mut [usize],
    end: &mut [usize],
) -> usize
    ensures { let at = at.now in
        opening result candidates.new next.new end.new
        ≡ opening_of (pass_lent lent.now) (loads_lent at.loads) at.is_new at.depth draw at.remaining
        candidates.old next.old end.old }
{
    let depth = at.depth;
    if !opens(at.is_new, depth, candidates.len(), next.len(), end.len()) {
        return draw;
    }
    let asked = depth_at(lent, draw, depth, at.remaining);
    let start = 25 * depth;
    let bucket = &mut candidates[start..start + 25];
    let filled = open_depth(lent, at.loads, depth, asked, bucket);
    next[depth] = start;
    end[depth] = start + filled.count;
    draw_after(lent.draws, draw, filled.drew)
}
