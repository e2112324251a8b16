// The public call list_page: a page of a day's plans, beside request 03's listing.
ghost use Rattle.std.specs.Prelude.{◌≡◌, length, take};
ghost use Rattle.day_rows.specs.Told.{done, good};
ghost use Rattle.plan_check.specs.Day.{day_lent};
ghost use Rattle.list_nodes.specs.Judge.{judge_of};
ghost use Rattle.list_nodes.specs.steps.Runs.{Judged};
ghost use Rattle.list_starts.specs.PageAnswer.{page_tells, paged_tells};
ghost use Rattle.list_page.specs.Page.{Fits};

use day_rows::refusal::Refusal;
use list_decided::row_order::rows_in_order;
use list_domains::places::first_domains;
use list_nodes::judge::judge;
use list_starts::asked::Asked;
use list_starts::page_end::{Paged, page_told};
use list_tables::fill::{fill_tables, no_tables};
use list_tables::lightest_fill::fill_lightest;
use list_walk::all::walk_all;
use list_weights::fit::fit_weights;
use plan_check::day::Day;

// The first so many rows of a list; all of them if there are fewer.
fn first_rows(rows: &[u64], count: usize) -> &[u64]
    ensures { result.now ≡ take count rows.now }
{
    &rows[..count.min(rows.len())]
}

// The page of a day that is not refused: its tables by weights that are fitted to it, its choices' first
// domains, its rows in the order in which choices decide them, and the walk.
fn page_of_day(day: &Day, asked: &Asked, budget: u64, buffer: &mut [u8]) -> Paged
    requires { Judged (day_lent day.now) asked.now.room buffer.old }
    ensures { let page = asked.now in
        let day = day_lent day.now in
        let judged = judge_of day page.room (length buffer.old) in
        (judged ≡ good → Fits day page.first page.room budget buffer.old (done (page_tells result)) buffer.new) }
{
    let counts = day.counts;
    let mut tables = no_tables();
    fit_weights(counts, day.maxs, &mut tables);
    fill_tables(day, &mut tables);
    fill_lightest(counts.choices, &mut tables);
    let domains = first_domains(counts.slots, day.optional);
    let ordered = rows_in_order(counts.slots, day.rows);
    let rows = first_rows(&ordered, day.rows.len());
    let listed = Day { rows, ..*day };
    let mut turns = budget;
    let mut met = 0;
    let going = walk_all(
        &listed, asked, &tables, &domains, &mut turns, &mut met, buffer,
    );
    page_told(asked, going, met)
}

// The plans of a day from the first number on, as many as there is room for, and whether the list goes on;
// room 0 asks for the total alone.
pub fn list_page(day: &Day, asked: &Asked, budget: u64, buffer: &mut [u8]) -> Result<Paged, Refusal>
    ensures { let page = asked.now in
        Fits (day_lent day.now) page.first page.room budget buffer.old (paged_tells result) buffer.new }
{
    judge(day, asked.room, buffer.len())?;
    Ok(page_of_day(day, asked, budget, buffer))
}
