// The program `plans`: a whole file and three numbers in, the whole text out.
ghost use Rattle.std.specs.Prelude.{◌≡◌, ◌*◌, ◌≤◌, length};
ghost use Rattle.day_rows.specs.Told.{good, tells};
ghost use Rattle.day_file.specs.FileDay.{row_counts};
ghost use Rattle.plan_check.specs.Day.{day_lent};
ghost use Rattle.list_nodes.specs.Judge.{judge_of};
ghost use Rattle.text_lines.specs.Pages.{longest};
ghost use Rattle.text_day.specs.steps.FileGiven.{FileGiven};
ghost use Rattle.text_plans.specs.PlansAnswer.{Lists, ReduceAnswers, Answers};
ghost use Rattle.text_plans.specs.Calls.{Puts, TextFits};

use day_file::day::FileDay;
use day_rows::check::Counts;
use day_rows::refusal::Refusal;
use list_page::page::list_page;
use list_starts::asked::Asked;
use list_starts::page_end::Paged;
use plan_check::day::Day;
use reduce::reduce;
use text_day::pools::{Pools, read_file};
use text_day::refusal::put_refusal;
use text_day::search_list::search_count;
use text_lines::plans_lines::{Page, put_page};
use text_lines::put::put_clash;

// The most plans that a page of the program may have.
pub const MOST_ROOM: u64 = 1024;

// The length of the pool lent for a text: two lines of 50 bytes in all, and 1,024 plans of 64 places at 282
// bytes.
pub const LONGEST_TEXT: usize = 288_818;

// The page whose plans stand at a buffer's front.
fn page_of<'a>(first: u64, written: u64, choices: usize, buffer: &'a [u8]) -> Page<'a>
    ensures first { result.first ≡ first }
    ensures count { result.count ≡ written }
    ensures choices { result.choices ≡ choices }
    ensures plans { result.plans.now ≡ buffer.now }
{
    Page {
        first,
        count: written as usize,
        choices,
        plans: buffer,
    }
}

// Puts the text of a day that the listing takes.
fn put_plans_of(day: &Day, asked: &Asked, budget: u64, text: &mut [u8]) -> usize
    requires judged { let room = asked.now.room in
        judge_of (day_lent day.now) room (room * day.now.counts.choices) ≡ good }
    requires room { asked.now.room ≤ 1024 }
    requires full { length text.old ≡ longest }
    ensures { let May = Lists (day_lent day.now) asked.now.first asked.now.room budget in
        Puts May text.old text.new result }
{
    let mut buffer = [0u8; 65536];
    let choices = day.counts.choices;
    let size = asked.room as usize * choices;
    match list_page(day, asked, budget, &mut buffer[..size]) {
        Ok(Paged::Ended { written, total }) => {
            let page = page_of(asked.first, written, choices, &buffer);
            put_page(text, b"result listed\ntotal ", total, &page)
        }
        Ok(Paged::GoesOn { written, met }) => {
            let page = page_of(asked.first, written, choices, &buffer);
            put_page(text, b"result listed\ntotal at least ", met, &page)
        }
        Ok(Paged::Turns { written, met }) => {
            let page = page_of(asked.first, written, choices, &buffer);
            put_page(text, b"result turns\ntotal at least ", met, &page)
        }
        Err(why) => put_refusal(text, why),
    }
}

// Puts the text of a day: its rows are reduced once, and the search's part of them is listed by. The day is
// lent by value: behind a reference its lists can't stand beside rows that live for less long.
fn put_day(day: FileDay, asked: &Asked, budget: u64, text: &mut [u8]) -> usize
    requires given { let counts = row_counts day.counts in
        FileGiven counts day.mins.now day.maxs.now day.optional.now day.rows.now }
    requires room { asked.now.room ≤ 1024 }
    requires full { length text.old ≡ longest }
    ensures { let day = day.entry in
        let May = ReduceAnswers (row_counts day.counts)
        day.mins.now day.maxs.now day.optional.now day.rows.now
        asked.now.first asked.now.room budget in
        Puts May text.old text.new result }
{
    let mut pool = [0u64; 1024];
    match reduce(day.counts.for_rows(), day.rows, &mut pool) {
        Ok(reduction) => {
            if reduction.clash {
                return put_clash(text);
            }
            let searched = search_count(&pool[..reduction.count]);
            let listed = Day {
                counts: Counts {
                    choices: day.counts.choices,
                    slots: day.counts.slots,
                    choosers: day.counts.choosers,
                    rows: searched,
                },
                mins: day.mins,
                maxs: day.maxs,
                optional: day.optional,
                rows: &pool[..searched],
            };
            put_plans_of(&listed, asked, budget, text)
        }
        Err(why) => put_refusal(text, why),
    }
}

// Puts the text of `plans` for a file: the file is read, and its day listed.
fn put_plans_of_file(file: &[u8], asked: &Asked, budget: u64, text: &mut [u8]) -> usize
    requires room { asked.now.room ≤ 1024 }
    requires full { length text.old ≡ longest }
    ensures { let May = Answers file.now asked.now.first asked.now.room budget in
        Puts May text.old text.new result }
{
    let mut pools = Pools::new();
    match read_file(file, &mut pools) {
        Ok(day) => put_day(day, asked, budget, text),
        Err(why) => put_refusal(text, why),
    }
}

// Makes the whole text that `plans` prints for a file, from the front of the lent pool.
pub fn plans_text(
    file: &[u8],
    first: u64,
    room: u64,
    budget: u64,
    text: &mut [u8],
) -> Result<usize, Refusal>
    ensures { let before = text.old in
        let after = text.new in
        TextFits file.now first room budget before (tells result) after }
{
    if MOST_ROOM < room {
        return Err(Refusal::Count);
    }
    if text.len() != LONGEST_TEXT {
        return Err(Refusal::Length);
    }
    text.fill(0);
    let asked = Asked { first, room };
    Ok(put_plans_of_file(file, &asked, budget, text))
}
