// The program `plan`: a whole file in, the whole text out.
ghost use Rattle.std.specs.Prelude.{◌≡◌, ◌≤◌, length};
ghost use Rattle.day_rows.specs.Told.{outcome, tells};
ghost use Rattle.day_file.specs.FileDay.{file_day_lent, row_counts};
ghost use Rattle.text_lines.specs.Put.{pool, put_at};
ghost use Rattle.text_lines.specs.PlanLines.{answer_text};
ghost use Rattle.text_lines.specs.Putting.{longest};
ghost use Rattle.text_day.specs.steps.FileGiven.{FileGiven};
ghost use Rattle.text_plan.specs.PlanAnswer.{plan_counts, said, search_answer, reduce_answer};
ghost use Rattle.text_plan.specs.Calls.{plan_text, text_of};

use day_file::counts::FileCounts;
use day_file::day::FileDay;
use day_rows::refusal::Refusal;
use reduce::reduce;
use search_day::given::{PlanCounts, PlanGiven};
use search_day::plan::plan_day;
use search_day::settings::PlanSettings;
use search_meaning::answer;
use search_meaning::answer::Searched;
use sets_analysis::analysis::Analysis;
use text_day::pools::{Pools, read_file};
use text_day::refusal::put_refusal;
use text_day::search_list::search_count;
use text_lines::plan_lines::{Figures, LONGEST_TEXT, put_found, put_none, put_turns};
use text_lines::put::put_clash;

// 'pass budget 100,000, total 1,000,000': the turns of one pass.
const PASS_BUDGET: u64 = 100_000;

// 'pass budget 100,000, total 1,000,000': the turns of all passes.
const TOTAL_BUDGET: u64 = 1_000_000;

// The counts that the search is asked with: a file's, and so many rows.
fn plan_counts(counts: FileCounts, rows: usize) -> PlanCounts
    ensures { result ≡ plan_counts counts rows }
{
    PlanCounts {
        choices: counts.choices,
        slots: counts.slots,
        choosers: counts.choosers,
        levels: counts.levels,
        rows,
    }
}

// The figures of a search's answer as the text says them.
fn said(figures: answer::Figures) -> Figures
    ensures { result ≡ said figures }
{
    Figures {
        turns: figures.turns,
        passes: figures.passes,
        limit: figures.limit,
    }
}

// Puts the text of a day that is searched with these rows: 'analysis with simplifying, no orders or draws,
// start at the bound'. The day is lent by value: behind a reference its lists can't stand beside rows that
// live for less long.
fn put_search(day: FileDay, rows: &[u64], text: &mut [u8]) -> usize
    requires few { day.counts.choices ≤ 64 }
    requires full { length text.old ≡ longest }
    ensures { let day = day.entry in
        let answer = search_answer (plan_counts day.counts (length rows.now))
        day.mins.now day.maxs.now day.optional.now
        day.levels.now day.preferences.now rows.now in
        pool text.new result ≡ put_at text.old 0 (answer_text answer) }
{
    let mut plan = [0u8; 64];
    let given = PlanGiven {
        counts: plan_counts(day.counts, rows.len()),
        mins: day.mins,
        maxs: day.maxs,
        optional: day.optional,
        levels: day.levels,
        preferences: day.preferences,
        rows,
        orders: &[],
        draws: &[],
    };
    let settings = PlanSettings {
        analysis: Analysis::Simplified,
        at_last_level: false,
        pass_budget: PASS_BUDGET,
        total_budget: TOTAL_BUDGET,
    };
    let choices = given.counts.choices;
    match plan_day(&given, settings, &mut plan[..choices]) {
        Ok(Searched::Found(figures)) => put_found(text, said(figures), &plan[..choices]),
        Ok(Searched::None(figures)) => put_none(text, said(figures)),
        Ok(Searched::OutOfTurns(figures)) => put_turns(text, said(figures)),
        Err(why) => put_refusal(text, why),
    }
}

// Puts the text of a day: its rows are reduced once, and the search's part of them is searched with.
fn put_day(day: FileDay, text: &mut [u8]) -> usize
    requires given { let counts = row_counts day.counts in
        FileGiven counts day.mins.now day.maxs.now day.optional.now day.rows.now }
    requires full { length text.old ≡ longest }
    ensures { let day = file_day_lent day.entry in
        pool text.new result ≡ put_at text.old 0 (answer_text (reduce_answer day.counts day.lists)) }
{
    let mut pool = [0u64; 1024];
    match reduce(day.counts.for_rows(), day.rows, &mut pool) {
        Ok(reduction) => {
            if reduction.clash {
                return put_clash(text);
            }
            let searched = search_count(&pool[..reduction.count]);
            put_search(day, &pool[..searched], text)
        }
        Err(why) => put_refusal(text, why),
    }
}

// Puts the text of `plan` for a file: the file is read, and its day searched.
fn put_plan_of_file(file: &[u8], text: &mut [u8]) -> usize
    requires { length text.old ≡ longest }
    ensures { pool text.new result ≡ put_at text.old 0 (plan_text file.now) }
{
    let mut pools = Pools::new();
    match read_file(file, &mut pools) {
        Ok(day) => put_day(day, text),
        Err(why) => put_refusal(text, why),
    }
}

// Makes the whole text that `plan` prints for a file, from the front of the lent pool.
pub fn plan_text(file: &[u8], text: &mut [u8]) -> Result<usize, Refusal>
    ensures { outcome (tells result) text.new ≡ text_of file.now text.old }
{
    if text.len() != LONGEST_TEXT {
        return Err(Refusal::Length);
    }
    text.fill(0);
    Ok(put_plan_of_file(file, text))
}
