// How many settled choices stand in each slot, and how many choices it has at least by its sums.
ghost use Rattle.std.specs.Prelude.{◌≡◌, ℕ, ◌+◌, ◌≤◌, ◌<◌, get_or, replicate};
ghost use Rattle.list_tables.specs.steps.Tables.{entry_at, written};
ghost use Rattle.list_rule_tables.specs.steps.Figures.{free_of};
ghost use Rattle.list_rule_tables.specs.steps.SettledFigures.{changed_by};
ghost use Rattle.list_rule_counts.specs.steps.CountRule.{settled_count};
ghost use Rattle.list_rule_counts.specs.steps.Figures.{fewest_in};

use list_domains::places::{is_settled, lowest_place};
use list_rule_tables::figures::Figures;
use list_tables::entry::least_at;

// Counts a settled choice in its one place, if that is one of the slots.
fn count_one(slots: usize, domain: u64, settled: &mut [usize; 24])
    requires { (slots ≤ 24) × ((slot : ℕ) → slot < slots → get_or settled.old slot 0 ≤ 64) }
    ensures { settled.new ≡ changed_by slots (λ count. count + 1) domain settled.old }
{
    if !is_settled(domain) {
        return;
    }
    let slot = lowest_place(domain);
    if slots <= slot {
        return;
    }
    settled[slot] += 1;
}

// How many settled choices stand in each slot.
pub(crate) fn settled_counts(slots: usize, choices: usize, domains: &[u64; 64]) -> [usize; 24]
    requires { (slots ≤ 24) × (choices ≤ 64) }
    ensures { let given = domains.now in
        let count = settled_count choices (free_of choices given) given in
        (result ≡ written slots 0 count (replicate 24 0))
        × ((slot : ℕ) → slot < slots → get_or result slot 0 ≤ 64) }
{
    let mut settled = [0usize; 24];
    for domain in &domains[..choices] {
        count_one(slots, *domain, &mut settled);
    }
    settled
}

// How many choices each slot has at least by its sums: the settled ones, and the fewest that fill its lack.
pub(crate) fn least_counts(
    slots: usize,
    figures: &Figures,
    from: usize,
    settled: &[usize; 24],
) -> [usize; 24]
    requires { (slots ≤ 24) × ((slot : ℕ) → slot < slots → get_or settled.now slot 0 ≤ 64) }
    ensures { let entry = entry_at figures.now.tables.now in
        let fewest = fewest_in entry from figures.now.lacks.now settled.now in
        result ≡ written slots 0 fewest (replicate 24 0) }
{
    let mut least = [0usize; 24];
    for slot in 0..slots {
        let more = least_at(figures.tables, 0, from, figures.lacks[slot]);
        least[slot] = settled[slot] + more;
    }
    least
}
