// What a row leaves of one domain: of its choice's where it names a slot, of each side's where it names two
// choices, of the one's where it names it twice.
ghost use Rattle.std.specs.Prelude.{◌≡◌, cond, eqb};
ghost use Rattle.day_rows.specs.Row.{row_of};
ghost use Rattle.list_domains.specs.steps.Domains.{only_place, both_places};
ghost use Rattle.list_rule_rows.specs.steps.RowRules.{slot_leaves, apart, right_faces, left_faces, pair_left, pair_right, self_leaves};

use super::moves::facing_places;
use day_rows::kind::Kind;
use day_rows::row::Row;
use list_domains::places::{both, in_one_slot, kept, only};

// Kinds 1 and 2: the slot alone, or any place but the slot. A slot past the day's takes nothing away.
pub(crate) fn slot_leaves(slots: usize, slot: usize, stands: bool, domain: u64) -> u64
    ensures { result ≡ slot_leaves slots slot stands domain }
{
    if slots <= slot {
        return domain;
    }
    kept(domain, slot, stands, !stands)
}

// Kind 4: a slot that the other side must take leaves this one.
fn apart_from(slots: usize, domain: u64, other: u64) -> u64
    ensures { result ≡ apart slots domain other }
{
    if !in_one_slot(slots, other) {
        return domain;
    }
    domain ^ (domain & other)
}

// Kind 5: right's places that left can face. Right is higher by the offset, and
// extra is the offset plus 32,768.
fn right_by_offset(slots: usize, left: u64, right: u64, extra: u16) -> u64
    ensures { result ≡ right_faces slots left right extra }
{
    facing_places(slots, right, left, 32_768, extra as usize)
}

// Kind 5: left's places that right can face.
fn left_by_offset(slots: usize, left: u64, right: u64, extra: u16) -> u64
    ensures { result ≡ left_faces slots left right extra }
{
    facing_places(slots, left, right, extra as usize, 32_768)
}

// What a number's row leaves of its left choice's domain.
pub(crate) fn left_side(slots: usize, number: u64, left: u64, right: u64) -> u64
    ensures { result ≡ pair_left slots (row_of number) left right }
{
    match Row::kind_of(number) {
        Kind::CHOICES_ARE_IN_SAME_SLOT => both(left, right),
        Kind::CHOICES_ARE_NOT_IN_SAME_SLOT => apart_from(slots, left, right),
        Kind::CHOICES_HAVE_OFFSET => left_by_offset(slots, left, right, Row::extra_of(number)),
        _ => left,
    }
}

// What a number's row leaves of its right choice's domain.
pub(crate) fn right_side(slots: usize, number: u64, left: u64, right: u64) -> u64
    ensures { result ≡ pair_right slots (row_of number) left right }
{
    match Row::kind_of(number) {
        Kind::CHOICES_ARE_IN_SAME_SLOT => both(left, right),
        Kind::CHOICES_ARE_NOT_IN_SAME_SLOT => apart_from(slots, right, left),
        Kind::CHOICES_HAVE_OFFSET => right_by_offset(slots, left, right, Row::extra_of(number)),
        _ => right,
    }
}

// Omission alone, if the domain has it, else no place.
fn omission_alone(slots: usize, domain: u64) -> u64
    ensures { result ≡ both_places domain (only_place slots) }
{
    both(domain, only(slots))
}

// Kind 5 of a choice with itself: every place has offset 0 to itself, and omission alone has any other.
fn own_offset_leaves(slots: usize, domain: u64, extra: u16) -> u64
    ensures { result ≡ cond (eqb extra 32768) domain (both_places domain (only_place slots)) }
{
    let holds = extra == 32_768;
    if holds {
        return domain;
    }
    omission_alone(slots, domain)
}

// What a number's row of a choice with itself leaves of its domain.
pub(crate) fn self_leaves(slots: usize, number: u64, domain: u64) -> u64
    ensures { result ≡ self_leaves slots (row_of number) domain }
{
    match Row::kind_of(number) {
        Kind::CHOICES_ARE_NOT_IN_SAME_SLOT => omission_alone(slots, domain),
        Kind::CHOICES_HAVE_OFFSET => own_offset_leaves(slots, domain, Row::extra_of(number)),
        _ => domain,
    }
}
