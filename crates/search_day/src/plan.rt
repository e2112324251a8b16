// A day planned as a public call.
ghost use Rattle.std.specs.Prelude.{◌≡◌};
ghost use Rattle.day_rows.specs.Told.{good, outcome, tells};
ghost use Rattle.search_meaning.specs.Calls.{searched_tells};
ghost use Rattle.search_meaning.specs.SearchAnswer.{AnswerSays};
ghost use Rattle.search_day.specs.Planning.{judged_first, own_given, full_settings, planned_by};

use super::given::{PlanGiven, given_by, with_numbers};
use super::settings::{PlanSettings, full_by};
use super::whole::{count_up, whole_length};
use day_rows::refusal::Refusal;
use search::search::search;
use search_map::map::Map;
use search_map::own_map::own_map;
use search_meaning::answer::Searched;
use search_meaning::counts::row_counts;
use search_meaning::judge::judge_day;

// The first refusals, before there is a map: 1, 2, 3, 4, 5 with the first bad row.
fn judge_first(given: &PlanGiven, plan: &[u8]) -> Result<(), Refusal>
    ensures { tells result ≡ judged_first given.now plan.now }
{
    let starts = [0u16; 64];
    let lengths = [0u16; 64];
    let numbers = [0u16; 10240];
    let map = Map {
        starts: &starts,
        lengths: &lengths,
        numbers: &numbers,
    };
    let size = whole_length(given.rows.len());
    let mut whole = [0u16; 1024];
    count_up(size, &mut whole);
    judge_day(&given_by(*given, 0, map, &whole[..size]), plan)
}

// The own map of a day that isn't refused so far, and the full search with it.
fn own_search(
    given: &PlanGiven,
    settings: PlanSettings,
    plan: &mut [u8],
) -> Result<Searched, Refusal>
    requires { judged_first given.now plan.old ≡ good }
    ensures { let answer = planned_by given.now (full_settings settings) plan.old in
        (outcome (searched_tells result) plan.new ≡ answer)
        × AnswerSays (own_given given.now) settings.total_budget plan.new result }
{
    let mut starts = [0u16; 64];
    let mut lengths = [0u16; 64];
    let mut numbers = [0u16; 10240];
    let counts = row_counts(with_numbers(given.counts, 0));
    let count = own_map(counts, given.rows, &mut starts, &mut lengths, &mut numbers)?;
    let map = Map {
        starts: &starts,
        lengths: &lengths,
        numbers: &numbers,
    };
    let size = whole_length(given.rows.len());
    let mut whole = [0u16; 1024];
    count_up(size, &mut whole);
    let mapped = given_by(*given, count, map, &whole[..size]);
    search(&mapped, full_by(settings), plan)
}

// A day planned with its own map by the full search, so that the answer is demand 3's.
pub fn plan_day(
    given: &PlanGiven,
    settings: PlanSettings,
    plan: &mut [u8],
) -> Result<Searched, Refusal>
    ensures { let answer = planned_by given.now (full_settings settings) plan.old in
        (outcome (searched_tells result) plan.new ≡ answer)
        × AnswerSays (own_given given.now) settings.total_budget plan.new result }
{
    judge_first(given, plan)?;
    own_search(given, settings, plan)
}
