// A depth as its candidates are asked for.
ghost use Rattle.std.specs.Prelude.{◌≡◌, suc, eqb};
ghost use Rattle.search_rules.specs.Pass.{pass_lent};
ghost use Rattle.search_turn.specs.steps.Opening.{depth_from};

use super::amount::choice_at;
use base_pools::number::flag_of;
use search_candidates::asked::Depth;
use search_rules::pass::Lent;

// Whether a depth is that of the last undecided choice.
fn is_last(choices: usize, depth: usize) -> bool
    ensures { result ≡ eqb (suc depth) choices }
{
    if choices <= depth {
        return false;
    }
    depth + 1 == choices
}

// The choice of a depth with its own numbers, what remains and the draw; an entry past its list's end is 0.
pub(crate) fn depth_at(lent: &Lent, draw: usize, depth: usize, remaining: u32) -> Depth
    ensures { result ≡ depth_from (pass_lent lent.now) depth draw remaining }
{
    let day = lent.day;
    let choice = choice_at(lent.order, depth);
    Depth {
        choice,
        min: day.mins.get(choice).copied().unwrap_or(0),
        max: day.maxs.get(choice).copied().unwrap_or(0),
        optional: flag_of(day.optional, choice),
        last: is_last(day.counts.choices, depth),
        remaining,
        draw: lent.draws.get(draw).copied().unwrap_or(0),
    }
}
