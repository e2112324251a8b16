// Which choices are free, the first of them, and what each slot still lacks.
ghost use Rattle.std.specs.Prelude.{◌≡◌, cond, ◌+◌, ◌-◌, ◌*◌, ◌≤◌, leb, length, get_or, replicate};
ghost use Rattle.list_tables.specs.steps.Tables.{written};
ghost use Rattle.plan_check.specs.Day.{day_lent};
ghost use Rattle.list_rule_tables.specs.steps.Figures.{free_of, first_in, lacks_of, lacks_in};
ghost use Rattle.list_rule_tables.specs.steps.SettledFigures.{changed_by};

use base_choice_sets::set::with_if;
use list_domains::places::{is_settled, lowest_place};
use list_tables::shape::TABLES;
use plan_check::day::Day;

// What tables and counts narrow the domains of a start by: the tables, which choices are free, and what each
// slot lacks.
#[derive(Clone, Copy)]
pub struct Figures<'a> {
    pub tables: &'a [u16; TABLES],
    pub free: u64,
    pub lacks: &'a [usize; 24],
}

// The choices that have two places or more.
fn free_choices(choices: usize, domains: &[u64; 64]) -> u64
    requires { choices ≤ 64 }
    ensures { result ≡ free_of choices domains.now }
{
    let mut free = 0;
    for choice in 0..choices {
        let settled = is_settled(domains[choice]);
        free = with_if(free, choice, !settled);
    }
    free
}

// The first choice of a set, or the number of choices if it has none.
pub fn first_in(choices: usize, set: u64) -> usize
    ensures { (result ≡ first_in choices set) × (result ≤ choices) }
{
    let first = lowest_place(set);
    if 64 <= first {
        return choices;
    }
    if choices <= first {
        return choices;
    }
    first
}

// Takes a settled choice's maximum from what its one place lacks, if that is one of the slots.
fn bring(slots: usize, most: u16, domain: u64, lacks: &mut [usize; 24])
    requires { slots ≤ 24 }
    ensures { lacks.new ≡ changed_by slots (λ lack. lack - most) domain lacks.old }
{
    if !is_settled(domain) {
        return;
    }
    let slot = lowest_place(domain);
    if slots <= slot {
        return;
    }
    lacks[slot] = lacks[slot].saturating_sub(usize::from(most));
}

// What each slot lacks: all choosers, less what each settled choice brings to one slot.
fn each_lack(day: &Day, domains: &[u64; 64]) -> [usize; 24]
    requires { let day = day_lent day.now in
        (day.counts.slots ≤ 24) × ((day.counts.choices ≤ 64) × (length day.maxs ≡ day.counts.choices)) }
    ensures { let counts = day.now.counts in
        let free = free_of counts.choices domains.now in
        result ≡ lacks_of counts.slots counts.choices counts.choosers day.now.maxs.now free domains.now }
{
    let counts = day.counts;
    let maxs = day.maxs;
    let mut lacks = [0usize; 24];
    lacks[..counts.slots].fill(counts.choosers);
    for choice in 0..counts.choices {
        bring(counts.slots, maxs[choice], domains[choice], &mut lacks);
    }
    lacks
}

// The free choices of a day of at most 64; of a day of more none.
pub fn free_of(choices: usize, domains: &[u64; 64]) -> u64
    ensures { result ≡ cond (leb choices 64) (free_of choices domains.now) 0 }
{
    if 64 < choices {
        return 0;
    }
    free_choices(choices, domains)
}

// What each slot of a day lacks; of a day that has another shape nothing.
pub fn lacks_of(day: &Day, domains: &[u64; 64]) -> [usize; 24]
    ensures { let day = day_lent day.now in
        result ≡ lacks_in day.counts day.maxs domains.now }
{
    let counts = day.counts;
    if 64 < counts.choices {
        return [0usize; 24];
    }
    if day.maxs.len() != counts.choices {
        return [0usize; 24];
    }
    if 24 < counts.slots {
        return [0usize; 24];
    }
    each_lack(day, domains)
}
