// One pass: turns down and back until a plan, an end, or a turn that isn't there.
ghost use Rattle.std.specs.Prelude.{◌≡◌, ◌≤◌, length, get_or};
ghost use Rattle.base_lists.specs.Keep.{sum_over};
ghost use Rattle.search_rules.specs.Pass.{pass_lent, pass_of};
ghost use Rattle.search_pass.specs.steps.Call.{leaves, passed_tells, left_by, pass_fits, pass_leaves};
ghost use Rattle.search_pass.specs.steps.Taken.{Taken, Within};

use search_order::is_permutation;
use search_rules::pass::Lent;
use search_turn::depth::open_if_new;
use search_turn::plan::write_plan;
use search_turn::shape::shapes_fit;
use search_turn::sight::{Sight, sight_at};
use search_turn::state::{AtDepth, SearchState};
use search_turn::turn::{closes, turned};

// How a pass ended, with the turns left and the place of the next draw.
#[derive(Clone, Copy)]
pub enum Passed {
    Found { left: u64, draw: usize },
    Without { left: u64, draw: usize },
    Wanting { draw: usize },
}

// The sum of every choice's max: what remains at depth 0.
fn all_max(order: &[u8], maxs: &[u16]) -> u32
    requires { Within order.now (length maxs.now) × (length order.now ≤ 64) }
    ensures { result ≡ sum_over (λ choice. get_or maxs.now choice 0) order.now }
{
    let mut sum = 0;
    for choice in order {
        sum += u32::from(maxs[usize::from(*choice)]);
    }
    sum
}

// The walk of a pass whose day and order are taken: turns until a plan, an end, or a turn that isn't there.
// There is room for 25 candidates of each of 65 depths, and for where they go on and end.
fn walk_pass(lent: &Lent, budget: u64, first_draw: usize, plan: &mut [u8]) -> Passed
    requires fact { Taken (pass_lent lent.now) }
    requires plan_len { length plan.old ≡ lent.now.day.counts.choices }
    ensures { let lent = pass_lent lent.now in
        let out = pass_of lent budget first_draw in
        leaves (passed_tells result) plan.new ≡ left_by lent plan.old out }
{
    // A copy: where a call gets the address of the day in what is lent, all of that stands on the stack.
    let day = lent.day;
    let mins = day.mins;
    let maxs = day.maxs;
    let mut state = SearchState::new(all_max(lent.order, maxs));
    let mut candidates = [0u8; 1625];
    let mut next = [0usize; 65];
    let mut end = [0usize; 65];
    let mut draw = first_draw;
    let mut left = budget;
    // Turns go down and back, so that no count runs along them.
    loop {
        match sight_at(lent.full, &day, &state.decisions, state.depth) {
            Sight::Goal => {
                break;
            }
            Sight::Over => {
                return Passed::Without { left, draw };
            }
            Sight::On => {}
        }
        if left == 0 {
            return Passed::Wanting { draw };
        }
        left -= 1;
        let at = AtDepth {
            is_new: state.is_new,
            depth: state.depth,
            remaining: state.remaining,
            loads: state.loads(),
        };
        draw = open_if_new(lent, &at, draw, &mut candidates, &mut next, &mut end);
        if closes(state.depth, &next, &end) {
            return Passed::Without { left, draw };
        }
        state = turned(state, mins, maxs, lent.order, &candidates, &mut next, &end);
    }
    write_plan(&state.decisions, plan);
    Passed::Found { left, draw }
}

// Whether what is lent is taken: a day's shape, and an order that is a permutation of the choices.
fn pass_fits(lent: &Lent, plan: &[u8]) -> bool
    ensures { result ≡ pass_fits (pass_lent lent.now) plan.now }
{
    if !shapes_fit(&lent.day, plan) {
        return false;
    }
    is_permutation(lent.day.counts.choices, lent.order)
}

// A pass over the choices in the given order, for callers that have judged their day: of what a call judges
// only C, S and lengths are tested here, and the order.
pub fn run_pass(lent: &Lent, budget: u64, draw: usize, plan: &mut [u8]) -> Passed
    ensures { leaves (passed_tells result) plan.new
        ≡ pass_leaves (pass_lent lent.now) budget draw plan.old }
{
    if !pass_fits(lent, plan) {
        return Passed::Without { left: budget, draw };
    }
    walk_pass(lent, budget, draw, plan)
}
