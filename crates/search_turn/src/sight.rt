// What stands at the places decided.
ghost use Rattle.std.specs.Prelude.{◌≡◌, cond, eqb};
ghost use Rattle.plan_check.specs.Day.{day_lent};
ghost use Rattle.search_rules.specs.Walk.{goal, over, on};
ghost use Rattle.search_turn.specs.steps.Seen.{sight_tells, sight_from};

use super::plan::front;
use plan_check::day::Day;
use plan_check::feasible::is_feasible;

// A plan that passes, the end of the pass, or neither.
#[derive(Clone, Copy)]
pub enum Sight {
    Goal,
    Over,
    On,
}

// What the plan check at depth C means for the full search.
fn sight_full(choices: usize, passes: bool) -> Sight
    ensures { sight_tells result ≡ cond passes goal (cond (eqb choices 0) over on) }
{
    if passes {
        return Sight::Goal;
    }
    if choices == 0 {
        return Sight::Over;
    }
    Sight::On
}

// What the plan check at depth C means for the search as the Rust has it.
fn sight_as_the_rust(slots: usize, passes: bool) -> Sight
    ensures { sight_tells result ≡ cond (eqb slots 0) over (cond passes goal over) }
{
    if slots == 0 {
        return Sight::Over;
    }
    if passes {
        return Sight::Goal;
    }
    Sight::Over
}

// What stands at the places decided: 'At depth C the plan check decides.' Which of the two meanings it has is a
// setting, known at run time alone: a closure would be chosen by the same test.
pub fn sight_at(full: bool, day: &Day, decisions: &[u8], depth: usize) -> Sight
    ensures { sight_tells result ≡ sight_from full (day_lent day.now) decisions.now depth }
{
    let choices = day.counts.choices;
    if depth < choices {
        return Sight::On;
    }
    let passes = is_feasible(day, front(decisions, choices));
    if full {
        return sight_full(choices, passes);
    }
    sight_as_the_rust(day.counts.slots, passes)
}
