// A page that a brute force gave, held against both calls: the listing's and the walk's.
use day_rows::refusal::Refusal;
use list_all::list_plans::{Listed, list_plans};
use list_page::page::list_page;
use list_starts::asked::Asked;
use list_starts::page_end::Paged;
use plan_check::day::Day;
use test_cases::BLANK;
use test_cases::pages::{Whole, bytes_of, is_page};

// A day, and its whole list as a brute force gave it.
#[derive(Clone, Copy)]
pub struct Case<'a> {
    pub day: Day<'a>,
    pub whole: Whole<'a>,
}

// Whether a listing's answer and the buffer are the page asked for.
fn is_listed(listed: Result<Listed, Refusal>, whole: &Whole, asked: &Asked, buffer: &[u8]) -> bool {
    let Ok(
        Listed::Plans {
            written,
            total,
            nodes,
        },
    ) = listed
    else {
        return false;
    };
    total == whole.total
        && nodes == whole.nodes
        && is_page(whole, asked.first, asked.room, written, buffer)
}

// Whether the list ends before a plan comes after the page; room 0 asks for the total alone.
fn ends(total: u64, asked: &Asked) -> bool {
    asked.room == 0 || total <= asked.first.wrapping_add(asked.room)
}

// The plans that a walk meets before it stops: those up to the one after the page, or all where there is none.
fn plans_met(total: u64, asked: &Asked) -> u64 {
    if ends(total, asked) {
        return total;
    }
    asked.first.wrapping_add(asked.room).wrapping_add(1)
}

// Whether a walk's answer and the buffer are the page asked for: with the total where the list ends, else with
// the plans met.
fn is_walked(paged: Result<Paged, Refusal>, whole: &Whole, asked: &Asked, buffer: &[u8]) -> bool {
    let end = ends(whole.total, asked);
    let most = plans_met(whole.total, asked);
    match paged {
        Ok(Paged::Ended { written, total }) => {
            end && total == most && is_page(whole, asked.first, asked.room, written, buffer)
        }
        Ok(Paged::GoesOn { written, met }) => {
            !end && met == most && is_page(whole, asked.first, asked.room, written, buffer)
        }
        Ok(Paged::Turns { .. }) | Err(_) => false,
    }
}

// Whether one page of both calls is the expected one: a budget that is enough for the listing is enough for
// the walk.
pub fn page_agrees(case: &Case, asked: &Asked, budget: u64, buffer: &mut [u8]) -> bool {
    let size = bytes_of(&case.whole, asked.room);
    if buffer.len() < size {
        return false;
    }
    let lent = &mut buffer[..size];
    lent.fill(BLANK);
    let listed = list_plans(&case.day, asked, budget, lent);
    if !is_listed(listed, &case.whole, asked, lent) {
        return false;
    }
    lent.fill(BLANK);
    let paged = list_page(&case.day, asked, budget, lent);
    is_walked(paged, &case.whole, asked, lent)
}

// Whether the total only, and the whole list in one page, are the expected ones, with budgets at and one
// above the nodes.
pub fn budgets_agree(case: &Case, buffer: &mut [u8]) -> bool {
    let nodes = case.whole.nodes;
    let more = nodes.wrapping_add(1);
    let total_only = Asked { first: 0, room: 0 };
    let all = Asked {
        first: 0,
        room: case.whole.total,
    };
    page_agrees(case, &total_only, more, buffer)
        && page_agrees(case, &all, nodes, buffer)
        && page_agrees(case, &all, more, buffer)
}
