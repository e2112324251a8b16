// What follows a pass: the call's answer, or the next pass.
ghost use Rattle.std.specs.Prelude.{◌≡◌, cond, ◌-◌, min};
ghost use Rattle.search_pass.specs.steps.Call.{passed_tells};
ghost use Rattle.search_meaning.specs.Calls.{figures};
ghost use Rattle.search_levels.specs.steps.Step.{begun_of, step_tells, after_found, after_without, after_wanting, step_of};

use search_meaning::answer::{Figures, Searched};
use search_meaning::settings::Settings;
use search_pass::pass::Passed;

// A pass as a call begins it: whether it is the last level's; the turns left before it, those that it has and
// all of the call; its number, from 1; and its limit.
#[derive(Clone, Copy)]
pub struct Begun {
    pub last: bool,
    pub left: u64,
    pub turns: u64,
    pub total: u64,
    pub passes: usize,
    pub limit: u16,
}

// The answer, or the turns left and the place of the next draw for the pass at the next level.
#[derive(Clone, Copy)]
pub enum Step {
    Answer(Searched),
    On { left: u64, draw: usize },
}

// The turns of a pass: 'A pass below the last level also ends when it needs a turn past the pass budget', the
// last has every turn that is left.
pub fn turns_of(last: bool, left: u64, budget: u64) -> u64
    ensures { result ≡ cond last left (min left budget) }
{
    if last {
        return left;
    }
    left.min(budget)
}

// A pass as a call with these settings begins it.
pub fn begun_by(last: bool, left: u64, settings: Settings, passes: usize, limit: u16) -> Begun
    ensures { let turns = cond last left (min left settings.pass_budget) in
        result ≡ begun_of last left turns settings.total_budget passes limit }
{
    Begun {
        last,
        left,
        turns: turns_of(last, left, settings.pass_budget),
        total: settings.total_budget,
        passes,
        limit,
    }
}

// The turns left of those before a pass that spared some of its own.
fn left_after(begun: Begun, spared: u64) -> u64
    ensures { result ≡ begun.left - (begun.turns - spared) }
{
    begun
        .left
        .saturating_sub(begun.turns.saturating_sub(spared))
}

// The figures of a call that ends with a pass and has so many turns left.
fn figures_of(begun: Begun, left: u64) -> Figures
    ensures { result ≡ figures (begun.total - left) begun.passes begun.limit }
{
    Figures {
        turns: begun.total.saturating_sub(left),
        passes: begun.passes,
        limit: begun.limit,
    }
}

// What follows a pass that found a plan: the call's answer.
fn after_found(begun: Begun, spared: u64) -> Step
    ensures { step_tells result ≡ after_found begun spared }
{
    Step::Answer(Searched::Found(figures_of(begun, left_after(begun, spared))))
}

// What follows a pass without a plan: 'after the last level the answer is none', else it 'goes to the next
// level above'.
fn after_without(begun: Begun, spared: u64, draw: usize) -> Step
    ensures { step_tells result ≡ after_without begun spared draw }
{
    let left = left_after(begun, spared);
    if begun.last {
        return Step::Answer(Searched::None(figures_of(begun, left)));
    }
    Step::On { left, draw }
}

// What follows a pass that needed a turn that wasn't there: 'A call that needs a turn past the total budget
// answers out of turns, before looking at the pass budget.'
fn after_wanting(begun: Begun, draw: usize) -> Step
    ensures { step_tells result ≡ after_wanting begun draw }
{
    if begun.left <= begun.turns {
        return Step::Answer(Searched::OutOfTurns(figures_of(begun, 0)));
    }
    Step::On {
        left: begun.left.saturating_sub(begun.turns),
        draw,
    }
}

// What follows a pass, by how it ended.
pub fn after_pass(begun: Begun, passed: Passed) -> Step
    ensures { step_tells result ≡ step_of begun (passed_tells passed) }
{
    match passed {
        Passed::Found {
            left: spared,
            draw: _,
        } => after_found(begun, spared),
        Passed::Without { left: spared, draw } => after_without(begun, spared, draw),
        Passed::Wanting { draw } => after_wanting(begun, draw),
    }
}
