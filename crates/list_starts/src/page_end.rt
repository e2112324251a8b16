// The page's end against the list's end: a page that is full says so only once the plan after it is met.
ghost use Rattle.std.specs.Prelude.{◌≡◌};
ghost use Rattle.list_nodes.specs.steps.Run.{goes_on};
ghost use Rattle.list_starts.specs.PageAnswer.{page_tells};
ghost use Rattle.list_starts.specs.steps.PageEnd.{told_of};

use super::asked::Asked;
use super::page::written_of;

// What the call list_page answers of a day that it doesn't refuse: the plans written, with the total where no
// plan comes after the page, else with the plans met until the walk stopped.
#[derive(Clone, Copy)]
pub enum Paged {
    Ended { written: u64, total: u64 },
    GoesOn { written: u64, met: u64 },
    Turns { written: u64, met: u64 },
}

// Whether the walk goes on after so many plans: the plan after the page hasn't been met yet, or room 0 asks
// for the total alone.
pub fn goes_on(asked: &Asked, met: u64) -> bool
    ensures { result ≡ goes_on asked.now.first asked.now.room met }
{
    if asked.room == 0 {
        return true;
    }
    if met <= asked.first {
        return true;
    }
    met - asked.first <= asked.room
}

// What the walk's end tells: the list ended, or the page is over, or turns ran out.
pub fn page_told(asked: &Asked, going: bool, met: u64) -> Paged
    ensures { page_tells result ≡ told_of asked.now.first asked.now.room going met }
{
    let written = written_of(asked, met);
    if going {
        return Paged::Ended {
            written,
            total: met,
        };
    }
    if goes_on(asked, met) {
        return Paged::Turns { written, met };
    }
    Paged::GoesOn { written, met }
}
