// What the wants leave of the domains: the free choices that the slots want are different ones.
ghost use Rattle.std.specs.Prelude.{◌≡◌, cond, ◌+◌, ◌-◌, ◌≤◌, ◌<◌, min, ltb, get_or};
ghost use Rattle.base_lists.specs.Below.{sum_below};
ghost use Rattle.base_choice_sets.specs.Sets.{set_of};
ghost use Rattle.list_domains.specs.steps.Domains.{both_places, each_below};
ghost use Rattle.list_rule_counts.specs.steps.CountRule.{want_rule};
ghost use Rattle.list_rule_counts.specs.steps.Figures.{keeps_of};

use base_choice_sets::set::{member, size, with_if};
use day_rows::check::Counts;
use list_domains::places::both;

// How many free choices are wanted with one slot more, cut at 65, which is more than any day has.
fn with_want(need: usize, want: usize) -> usize
    ensures { result ≡ min (need + want) 65 }
{
    need.saturating_add(want).min(65)
}

// How many free choices all slots want together, cut at 65.
fn need_of(slots: usize, wants: &[usize; 24]) -> usize
    requires { slots ≤ 24 }
    ensures { result ≡ min (sum_below slots (λ slot. get_or wants.now slot 0)) 65 }
{
    let mut need = 0;
    for want in &wants[..slots] {
        need = with_want(need, *want);
    }
    need
}

// The slots that want some free choices.
fn needy_slots(slots: usize, wants: &[usize; 24]) -> u64
    requires { slots ≤ 24 }
    ensures { result ≡ set_of slots (λ slot. ltb 0 (get_or wants.now slot 0)) }
{
    let mut set = 0;
    for slot in 0..slots {
        set = with_if(set, slot, 0 < wants[slot]);
    }
    set
}

// What a set of places leaves of one domain: a free choice keeps what is in the set.
fn kept_of(free: bool, set: u64, domain: u64) -> u64
    ensures { result ≡ cond free (both_places domain set) domain }
{
    if !free {
        return domain;
    }
    both(domain, set)
}

// Narrows the free choices' domains to what is in the set.
fn narrow_free(choices: usize, free: u64, set: u64, domains: &mut [u64; 64])
    requires { choices ≤ 64 }
    ensures { domains.new ≡ each_below choices (keeps_of free set) domains.old }
{
    for choice in 0..choices {
        let domain = domains[choice];
        domains[choice] = kept_of(member(free, choice), set, domain);
    }
}

// Narrows the free choices' domains by what the slots want: to nothing if they want more free choices than
// there are, to the slots that want some if they want them all.
pub(crate) fn narrow_by_wants(
    counts: Counts,
    free: u64,
    wants: &[usize; 24],
    domains: &mut [u64; 64],
)
    requires { (counts.slots ≤ 24) × (counts.choices ≤ 64) }
    ensures { let rule = want_rule counts.slots wants.now free in
        domains.new ≡ each_below counts.choices rule domains.old }
{
    let need = need_of(counts.slots, wants);
    let spare = size(free);
    if need < spare {
        return;
    }
    if spare < need {
        narrow_free(counts.choices, free, 0, domains);
        return;
    }
    narrow_free(
        counts.choices,
        free,
        needy_slots(counts.slots, wants),
        domains,
    );
}
