// The search as a public call.
ghost use Rattle.std.specs.Prelude.{◌≡◌, cond};
ghost use Rattle.day_rows.specs.Levels.{last_level};
ghost use Rattle.day_rows.specs.Told.{outcome};
ghost use Rattle.search_meaning.specs.Given.{given_lent};
ghost use Rattle.search_meaning.specs.Calls.{searched_tells, search_of};

use super::basis::Basis;
use super::passes::passes_from;
use day_rows::lists::last_level;
use day_rows::refusal::Refusal;
use search_meaning::answer::Searched;
use search_meaning::given::{Given, plan_day, sets_day};
use search_meaning::judge::{judge_day, judge_lent};
use search_meaning::settings::Settings;
use sets_analysis::analysis::analyze;

// The limit of the call's first pass: 'A call starts at the last level if the lent flag says so, else at the
// bound'.
fn start_of(at_last_level: bool, levels: &[u16], bound: u16) -> u16
    ensures { result ≡ cond at_last_level (last_level levels.now) bound }
{
    if at_last_level {
        return last_level(levels);
    }
    bound
}

// The search: its refusals, its sets, and its passes. 'The search keeps its sets itself and writes only the
// plan.'
pub fn search(given: &Given, settings: Settings, plan: &mut [u8]) -> Result<Searched, Refusal>
    ensures { let given = given_lent given.now in
        outcome (searched_tells result) plan.new ≡ search_of given settings plan.old }
{
    judge_day(given, plan)?;
    let mut masks = [0u64; 1024];
    let mut set_levels = [0u16; 1024];
    let day = sets_day(given);
    let found = analyze(&day, settings.analysis, &mut masks, &mut set_levels)?;
    judge_lent(given)?;
    let basis = Basis {
        full: settings.full,
        day: plan_day(given),
        map: given.map,
        whole: given.whole,
        orders: given.orders,
        levels: given.levels,
        count: found.count,
        masks: &masks,
        set_levels: &set_levels,
        draws: given.draws,
    };
    let start = start_of(settings.at_last_level, given.levels, found.bound);
    Ok(passes_from(&basis, settings, start, plan))
}
