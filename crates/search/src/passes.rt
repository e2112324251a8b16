// The passes of a call, from the start up to the last level.
ghost use Rattle.std.specs.Prelude.{◌≡◌};
ghost use Rattle.day_rows.specs.Told.{done, outcome};
ghost use Rattle.search_meaning.specs.Calls.{settled};
ghost use Rattle.search.specs.steps.Ground.{call_in};
ghost use Rattle.search.specs.steps.LevelPass.{basis_lent, ground_on, PassReady};

use super::basis::Basis;
use super::pass::pass_at;
use search_levels::levels::{level_at, levels_up_to};
use search_levels::step::{Step, after_pass, begun_by};
use search_meaning::answer::Searched;
use search_meaning::settings::Settings;

// The passes from a start on: 'A pass without a plan goes to the next level above; after the last level the
// answer is none.'
pub(crate) fn passes_from(
    basis: &Basis,
    settings: Settings,
    start: u16,
    plan: &mut [u8],
) -> Searched
    requires { PassReady (basis_lent basis.now) plan.old }
    ensures { let footing = ground_on (basis_lent basis.now) in
        outcome (done (settled result)) plan.new
        ≡ call_in footing settings.pass_budget settings.total_budget start plan.old }
{
    let mut limit = start;
    let mut above = levels_up_to(basis.levels, start);
    let mut left = settings.total_budget;
    let mut draw = 0;
    let mut pass = 0;
    // How a pass ends decides whether there is a next one, so that no count runs along the passes.
    loop {
        let last = basis.levels.len() <= above;
        let begun = begun_by(last, left, settings, pass + 1, limit);
        let passed = pass_at(basis, limit, pass, begun.turns, draw, plan);
        match after_pass(begun, passed) {
            Step::Answer(answer) => return answer,
            Step::On {
                left: rest,
                draw: next,
            } => {
                left = rest;
                draw = next;
            }
        }
        limit = level_at(basis.levels, above);
        above += 1;
        pass += 1;
    }
}
