// The public call list_plans: refused, out of turns, or listed.
ghost use Rattle.std.specs.Prelude.{◌≡◌, ◌<◌, ◌^◌, length};
ghost use mathlib.Core.List.{flatten};
ghost use Rattle.std.proofs.lemmas.List.Edits.{sets};
ghost use Rattle.plan_check.specs.Day.{day_lent};
ghost use Rattle.list_nodes.specs.Placements.{page, total};
ghost use Rattle.day_rows.specs.Told.{done, outcome};
ghost use Rattle.list_all.specs.Outcome.{list_tells, listed_tells, listed_of, list_of};
ghost use Rattle.list_nodes.specs.steps.Runs.{Judged};

use super::plans::list_choice;
use day_rows::refusal::Refusal;
use list_nodes::judge::judge;
use list_nodes::nodes::count_nodes;
use list_starts::asked::Asked;
use list_starts::page::written_of;
use plan_check::day::Day;

// What the listing answers of a day that it doesn't refuse: how many plans it wrote, how many there are and
// how many nodes it visited; or out of turns, which is an answer by a name of its own and not nothing.
#[derive(Clone, Copy)]
pub enum Listed {
    Plans {
        written: u64,
        total: u64,
        nodes: u64,
    },
    Turns,
}

// The listing's second run, from the empty start: the page is written, the answer is the total.
fn list_all(day: &Day, asked: &Asked, buffer: &mut [u8]) -> u64
    requires { let day = day_lent day.now in
        Judged day asked.now.room buffer.old × (total day < 2 ^ 64) }
    ensures { let day = day_lent day.now in
        let written = flatten (page day asked.now.first asked.now.room) in
        (result ≡ total day) × (buffer.new ≡ sets buffer.old 0 written) }
{
    let choices = day.counts.choices;
    let mut plan = [0u8; 64];
    let mut places = &mut plan[..choices];
    let mut slot_min = [0usize; 24];
    let mut total = 0;
    list_choice(
        day,
        asked,
        0,
        &mut places,
        &mut slot_min,
        &mut total,
        buffer,
    );
    total
}

// Lists a day that is not refused: the nodes first, since out of turns leaves the buffer untouched.
fn list_day(day: &Day, asked: &Asked, budget: u64, buffer: &mut [u8]) -> Listed
    requires { Judged (day_lent day.now) asked.now.room buffer.old }
    ensures { let told = outcome (done (list_tells result)) buffer.new in
        told ≡ listed_of (day_lent day.now) asked.now.first asked.now.room budget buffer.old }
{
    let Some(nodes) = count_nodes(day, budget) else {
        return Listed::Turns;
    };
    let total = list_all(day, asked, buffer);
    let written = written_of(asked, total);
    Listed::Plans {
        written,
        total,
        nodes,
    }
}

// All the plans of a day from the first number on, as many as there is room for.
pub fn list_plans(
    day: &Day,
    asked: &Asked,
    budget: u64,
    buffer: &mut [u8],
) -> Result<Listed, Refusal>
    ensures { let told = outcome (listed_tells result) buffer.new in
        told ≡ list_of (day_lent day.now) asked.now.first asked.now.room budget buffer.old }
{
    judge(day, asked.room, buffer.len())?;
    Ok(list_day(day, asked, budget, buffer))
}
