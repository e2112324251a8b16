// The pages of a day held against its whole list: what the program does with a day that it has read.
use list_all::list_plans::{Listed, list_plans};
use list_starts::asked::Asked;
use plan_check::day::Day;
use std::io;
use test_cases::BLANK;
use test_cases::pages::{Whole, is_page};

// How many plans the day has, as the telling in Python counts them; the whole has room for them alone.
const PLANS: u64 = 7_380;

// A plan's bytes: the day's choices.
const CHOICES: usize = 12;

// The budget of each call.
const BUDGET: u64 = 100_000_000;

// Whether one page, in what is lent for it, tells the whole's total and its nodes, and holds its part of the
// whole and no more.
fn page_agrees(day: &Day, whole: &Whole, asked: &Asked, page: &mut [u8]) -> bool {
    page.fill(BLANK);
    let listed = list_plans(day, asked, BUDGET, page);
    let Ok(
        Listed::Plans {
            written,
            total,
            nodes,
        },
    ) = listed
    else {
        return false;
    };
    total == whole.total
        && nodes == whole.nodes
        && is_page(whole, asked.first, asked.room, written, page)
}

// Reads the pages of a size, one after another up to the end of the list: how many there are, each equal to
// its part of the whole; none where one wasn't.
fn join_pages(day: &Day, whole: &Whole, room: u64, page: &mut [u8]) -> Option<u64> {
    let mut first = 0;
    for count in 0..100 {
        if whole.total <= first {
            return Some(count);
        }
        if !page_agrees(day, whole, &Asked { first, room }, page) {
            return None;
        }
        first = first.wrapping_add(room);
    }
    None
}

// Prints one line for the pages of a size.
fn tell_pages(rt: &impl Print, room: u64, joined: Option<u64>) -> io::Result<()> {
    print!(rt; "pages of {room}: ")?;
    match joined {
        Some(count) => tell_equal(rt, count),
        None => tell_differ(rt),
    }
}

// Prints how many pages equal their parts of the whole.
fn tell_equal(rt: &impl Print, count: u64) -> io::Result<()> {
    println!(rt; "{count}, joined equal the whole")
}

// Prints that something differs.
pub fn tell_differ(rt: &impl Print) -> io::Result<()> {
    rt.println("differ")
}

// Prints one line for the whole.
fn tell_whole(rt: &impl Print, whole: &Whole) -> io::Result<()> {
    let total = whole.total;
    let nodes = whole.nodes;
    println!(rt; "plans {total}, nodes {nodes}")
}

// Holds the pages of two sizes against the whole, the second so that pages also end elsewhere.
fn compare_pages(rt: &impl Print, day: &Day, whole: &Whole) -> io::Result<()> {
    tell_whole(rt, whole)?;
    let mut page = [BLANK; 1000 * CHOICES];
    tell_pages(rt, 1000, join_pages(day, whole, 1000, &mut page))?;
    let mut page = [BLANK; 997 * CHOICES];
    tell_pages(rt, 997, join_pages(day, whole, 997, &mut page))
}

// Lists the whole in one call, and holds the pages against it where it wrote all that there are.
pub fn list_day(rt: &impl Print, day: &Day) -> io::Result<()> {
    let mut plans = [BLANK; 88_560];
    let all = Asked {
        first: 0,
        room: PLANS,
    };
    let listed = list_plans(day, &all, BUDGET, &mut plans);
    let Ok(
        Listed::Plans {
            written: PLANS,
            total,
            nodes,
        },
    ) = listed
    else {
        return tell_differ(rt);
    };
    let whole = Whole {
        choices: CHOICES,
        total,
        nodes,
        plans: &plans,
    };
    compare_pages(rt, day, &whole)
}
