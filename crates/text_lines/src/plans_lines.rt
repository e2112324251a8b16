// The lines of the program `plans`.
ghost use Rattle.std.specs.Prelude.{◌≡◌, ℕ, ◌+◌, ◌*◌, ◌≤◌, ◌<◌, ◌^◌, leb, length, slice_index};
ghost use mathlib.Core.List.{flat_map};
ghost use Rattle.text_lines.specs.Put.{pool, put_at};
ghost use Rattle.text_lines.specs.steps.Put.{SamePool, FitsIn, PutIn};
ghost use Rattle.text_lines.specs.PlansLines.{place_text, plan_line, plan_lines, page_text};
ghost use Rattle.text_lines.specs.Pages.{plans_lent, put_page};

use super::put::Pool;

// A page as its text is made of it: the number of its first plan in the list, how many plans there are, of how
// many choices, and the plans one after another, a byte a place.
#[derive(Clone, Copy)]
pub struct Page<'a> {
    pub first: u64,
    pub count: usize,
    pub choices: usize,
    pub plans: &'a [u8],
}

// Puts one place of a plan's line: a slot, or `out`.
fn put_place(text: &mut Pool, place: u8)
    requires { FitsIn text.old (place_text place) }
    ensures same { SamePool text.old text.new }
    ensures put { PutIn text.old (place_text place) text.new }
{
    if place == 255 {
        text.put_bytes(b" out");
        return;
    }
    text.put_bytes(b" ");
    text.put_number(place as u64);
}

// Puts the places of a plan.
fn put_places(text: &mut Pool, plan: &[u8])
    requires { FitsIn text.old (flat_map place_text plan.now) }
    ensures same { SamePool text.old text.new }
    ensures put { PutIn text.old (flat_map place_text plan.now) text.new }
{
    for place in plan {
        put_place(text, *place);
    }
}

// Puts a plan's line: its number in the list, and its places.
fn put_plan(text: &mut Pool, number: u64, plan: &[u8])
    requires { FitsIn text.old (plan_line number plan.now) }
    ensures same { SamePool text.old text.new }
    ensures put { PutIn text.old (plan_line number plan.now) text.new }
{
    text.put_bytes(b"plan ");
    text.put_number(number);
    put_places(text, plan);
    text.put_bytes(b"\n");
}

// Puts a line for each of the plans that lie one after another in the page.
fn put_plans(text: &mut Pool, page: &Page)
    requires held { page.now.count * page.now.choices ≤ length page.now.plans.now }
    requires numbered { page.now.first + page.now.count < 2 ^ 64 }
    requires room { FitsIn text.old (plan_lines page.now.first (plans_lent page.now)) }
    ensures same { SamePool text.old text.new }
    ensures put { PutIn text.old (plan_lines page.now.first (plans_lent page.now)) text.new }
{
    for i in 0..page.count {
        let from = i * page.choices;
        let plan = &page.plans[from..from + page.choices];
        put_plan(text, page.first + i as u64, plan);
    }
}

// Puts a page that has room: the head with the number at its end, and the plans.
fn put_fitting_page(text: &mut Pool, head: &[u8], number: u64, page: &Page)
    requires held { page.now.count * page.now.choices ≤ length page.now.plans.now }
    requires numbered { page.now.first + page.now.count < 2 ^ 64 }
    requires room { let plans = plans_lent page.now in
        FitsIn text.old (page_text head.now page.now.first number plans) }
    ensures same { SamePool text.old text.new }
    ensures put { let plans = plans_lent page.now in
        PutIn text.old (page_text head.now page.now.first number plans) text.new }
{
    text.put_number_line(head, number);
    put_plans(text, page);
}

// Whether plans of so many places in all are there, a byte a place.
fn holds(plans: &[u8], places: usize) -> bool
    ensures held { result ≡ leb places (length plans.now) }
    ensures bytes { (place : ℕ) → slice_index plans.now place < 256 }
{
    places <= plans.len()
}

// Puts a page where it is within the limits: a head of at most 29 bytes with the number at its end, and the
// plans.
pub fn put_page(text: &mut [u8], head: &[u8], number: u64, page: &Page) -> usize
    ensures { let after = pool text.new result in
        let plans = page.now.plans.now in
        after
        ≡ put_page text.old head.now page.now.first number page.now.count page.now.choices plans }
{
    if 1024 < page.count {
        return 0;
    }
    if 64 < page.choices {
        return 0;
    }
    if !holds(page.plans, page.count * page.choices) {
        return 0;
    }
    if u64::MAX - page.first < page.count as u64 {
        return 0;
    }
    if 29 < head.len() {
        return 0;
    }
    if text.len() < 288_818 {
        return 0;
    }
    let mut text = Pool::new(text);
    put_fitting_page(&mut text, head, number, page);
    text.next
}
