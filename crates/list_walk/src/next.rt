// The next place of a choice: the first that its domain has of those that are left.
ghost use Rattle.std.specs.Prelude.{◌≡◌, ◌+◌, ◌-◌, ◌≤◌, length, take, drop, slice_index_or};
ghost use Rattle.std.specs.Int.Count.{count_trailing_zeros};
ghost use Rattle.plan_check.specs.Day.{day_lent};
ghost use Rattle.list_decided.specs.steps.Decided.{front_of};
ghost use Rattle.list_look.specs.steps.Look.{opened_at};
ghost use Rattle.list_walk.specs.steps.Sight.{next_within};

use list_decided::last::front_of;
use list_look::open::SlotSums;
use list_look::see::open_to;
use list_tables::shape::TABLES;
use plan_check::day::Day;

// How many places are left from a set's first member on, of so many that begin with the set's place 0; 0 if
// none of them is in the set.
fn from_first(set: u64, left: usize) -> usize
    ensures { result ≡ left - count_trailing_zeros 64 set }
{
    left.saturating_sub(set.trailing_zeros() as usize)
}

// How many places are left from the next one on that a domain has, of the last so many; 0 if there is none.
pub fn next_open(slots: usize, domain: u64, left: usize) -> usize
    ensures { result ≡ next_within slots domain left }
{
    if 24 < slots {
        return 0;
    }
    if slots + 1 < left {
        return 0;
    }
    from_first(domain >> (slots + 1 - left), left)
}

// How many places are left from the first one on that a domain has; 0 if there is none.
pub fn first_in(slots: usize, domain: u64) -> usize
    ensures { result ≡ next_within slots domain (slots + 1) }
{
    if 24 < slots {
        return 0;
    }
    next_open(slots, domain, slots + 1)
}

// How many places are left from the next open one on, after the place with so many left; 0 if there is none.
pub fn next_after(slots: usize, places: u64, left: usize) -> usize
    ensures { result ≡ next_within slots places (left - 1) }
{
    next_open(slots, places, left.saturating_sub(1))
}

// A list without its first so many rows; none are left of a shorter one.
pub fn rows_after(rows: &[u64], front: usize) -> &[u64]
    ensures { result.now ≡ drop front rows.now }
{
    if rows.len() < front {
        return &rows[..0];
    }
    &rows[front..]
}

// How many rows are decided with the next choice, the places that are open to it, and how many places are
// left from the first open one on.
#[derive(Clone, Copy)]
pub struct Opened {
    pub front: usize,
    pub places: u64,
    pub left: usize,
}

// What is open to the next choice, by the domains as the walk sees them.
pub fn open_next(
    day: &Day,
    tables: &[u16; TABLES],
    choice: usize,
    plan: &[u8],
    sums: &SlotSums,
    domains: &[u64; 64],
) -> Opened
    ensures { let day = day_lent day.now in
        let slots = day.counts.slots in
        let front = front_of slots choice day.rows in
        let decided = take front day.rows in
        let domain = slice_index_or domains.now choice 0 in
        let places = opened_at day.counts day.mins day.maxs day.optional decided tables.now plan.now choice
        sums.now.mins sums.now.maxs domain in
        (result.front ≡ front)
        × ((result.front ≤ length day.rows)
        × ((result.places ≡ places)
        × (result.left ≡ next_within slots result.places (slots + 1)))) }
{
    let slots = day.counts.slots;
    let front = front_of(slots, choice, day.rows);
    let places = open_to(day, tables, choice, front, plan, sums, domains);
    let left = first_in(slots, places);
    Opened {
        front,
        places,
        left,
    }
}
