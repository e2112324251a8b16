// Domains narrowed by a row.
ghost use Rattle.std.specs.Prelude.{◌≡◌};
ghost use Rattle.day_rows.specs.Row.{row_of};
ghost use Rattle.list_rule_rows.specs.steps.RowRules.{has_domain, slot_rule, pair_rule, self_rule, between_rule, row_rule};

use super::sides::{left_side, right_side, self_leaves, slot_leaves};
use day_rows::check::Counts;
use day_rows::kind::Kind;
use day_rows::row::Row;

// Whether a choice of the day has a domain; no domain is past 63.
fn has_domain(choices: usize, choice: usize) -> bool
    ensures { result ≡ has_domain choices choice }
{
    if choices <= choice {
        return false;
    }
    choice < 64
}

// Kinds 1 and 2: narrows the domain of the row's choice.
fn narrow_by_slot(counts: Counts, number: u64, stands: bool, domains: &mut [u64; 64])
    ensures { domains.new ≡ slot_rule counts.choices counts.slots (row_of number) stands domains.old }
{
    let left = Row::left_of(number) as usize;
    if !has_domain(counts.choices, left) {
        return;
    }
    let slot = Row::right_of(number) as usize;
    domains[left] = slot_leaves(counts.slots, slot, stands, domains[left]);
}

// Kinds 3 to 5 between two choices: narrows left by right, then right by what is left of left.
fn narrow_pair(counts: Counts, number: u64, domains: &mut [u64; 64])
    ensures { domains.new ≡ pair_rule counts.choices counts.slots (row_of number) domains.old }
{
    let left = Row::left_of(number) as usize;
    if !has_domain(counts.choices, left) {
        return;
    }
    let right = Row::right_of(number) as usize;
    if !has_domain(counts.choices, right) {
        return;
    }
    let other = domains[right];
    let narrowed = left_side(counts.slots, number, domains[left], other);
    domains[left] = narrowed;
    domains[right] = right_side(counts.slots, number, narrowed, other);
}

// Kinds 3 to 5 of a choice with itself: narrows the domain of that choice.
fn narrow_self(counts: Counts, number: u64, domains: &mut [u64; 64])
    ensures { domains.new ≡ self_rule counts.choices counts.slots (row_of number) domains.old }
{
    let left = Row::left_of(number) as usize;
    if !has_domain(counts.choices, left) {
        return;
    }
    domains[left] = self_leaves(counts.slots, number, domains[left]);
}

// Kinds 3 to 5: narrows the domains of the choices that the row names, be they two or one.
fn narrow_between(counts: Counts, number: u64, domains: &mut [u64; 64])
    ensures { domains.new ≡ between_rule counts.choices counts.slots (row_of number) domains.old }
{
    if Row::left_of(number) == Row::right_of(number) {
        narrow_self(counts, number, domains);
        return;
    }
    narrow_pair(counts, number, domains);
}

// Narrows the domains by a number's row of kinds 1 to 5; one of another kind takes nothing away here.
pub fn narrow_by_row(counts: Counts, number: u64, domains: &mut [u64; 64])
    ensures { domains.new ≡ row_rule counts.choices counts.slots (row_of number) domains.old }
{
    match Row::kind_of(number) {
        Kind::CHOICE_IS_IN_SLOT => narrow_by_slot(counts, number, true, domains),
        Kind::CHOICE_IS_NOT_IN_SLOT => narrow_by_slot(counts, number, false, domains),
        Kind::CHOICES_ARE_IN_SAME_SLOT => narrow_between(counts, number, domains),
        Kind::CHOICES_ARE_NOT_IN_SAME_SLOT => narrow_between(counts, number, domains),
        Kind::CHOICES_HAVE_OFFSET => narrow_between(counts, number, domains),
        _ => {}
    }
}
