// What is asked of a domain, and what is left of it. Every promise says it by which places are in a set.
ghost use Rattle.std.specs.Prelude.{◌≡◌, ℕ, ◌<◌, eqb, ltb, length, get_or};
ghost use Rattle.base_choice_sets.specs.Sets.{set_of};
ghost use Rattle.list_domains.specs.steps.Domains.{place_number, first_domain, only_place, kept_places, both_places, settled, in_one_slot, lowest_place};

use base_choice_sets::set::{member, with};
use base_pools::number::flag_of;

// The domain that holds one place alone; no place is past 63.
pub fn only(place: usize) -> u64
    ensures { result ≡ only_place place }
{
    if 64 <= place {
        return 0;
    }
    1 << place
}

// The places that two domains share.
pub fn both(one: u64, other: u64) -> u64
    ensures { result ≡ both_places one other }
{
    one & other
}

// What is left of a domain if the choice may stand in the slot or not, and may stand elsewhere or not.
pub fn kept(domain: u64, slot: usize, stands: bool, leaves: bool) -> u64
    ensures { result ≡ kept_places domain slot stands leaves }
{
    if stands {
        if leaves {
            return domain;
        }
        return domain & only(slot);
    }
    if leaves {
        return domain ^ (domain & only(slot));
    }
    0
}

// Whether a domain has at most one place left: without its lowest place it has none.
pub fn is_settled(domain: u64) -> bool
    ensures { result ≡ settled domain }
{
    if domain == 0 {
        return true;
    }
    domain & (domain - 1) == 0
}

// The lowest place of a domain, 64 if it has none: of a settled domain its one place.
pub fn lowest_place(domain: u64) -> usize
    ensures { result ≡ lowest_place domain }
{
    u64::trailing_zeros(domain) as usize
}

// Whether a domain has one place left, and that isn't omission.
pub fn in_one_slot(slots: usize, domain: u64) -> bool
    ensures { result ≡ in_one_slot slots domain }
{
    if domain == 0 {
        return false;
    }
    if !is_settled(domain) {
        return false;
    }
    !member(domain, slots)
}

// Whether the slot is the one place that a domain has left.
pub fn is_only(domain: u64, slot: usize) -> bool
    ensures { result ≡ eqb domain (only_place slot) }
{
    domain == only(slot)
}

// The domain of every slot: the bits under the number after the last slot.
fn every_slot(slots: usize) -> u64
    ensures { result ≡ set_of 64 (λ place. ltb place slots) }
{
    if 64 <= slots {
        return 0xFFFF_FFFF_FFFF_FFFF;
    }
    (1 << slots) - 1
}

// A choice's domain before anything is decided: every slot, and omission if the choice is optional.
pub fn first_domain(slots: usize, flag: u8) -> u64
    ensures { result ≡ first_domain slots flag }
{
    let every = every_slot(slots);
    if flag != 1 {
        return every;
    }
    with(every, slots)
}

// Each choice's domain before anything is decided; a choice past the list of flags is not optional.
pub fn first_domains(slots: usize, optional: &[u8]) -> [u64; 64]
    ensures { let flags = optional.now in
        (length result ≡ 64)
        × ((choice : ℕ) → choice < 64 → get_or result choice 0 ≡ first_domain slots (get_or flags choice 0)) }
{
    let mut domains = [0u64; 64];
    for (choice, domain) in domains.iter_mut().enumerate() {
        *domain = first_domain(slots, flag_of(optional, choice));
    }
    domains
}

// A place's number in a domain: a slot's own, omission's is the one after the last slot.
pub fn place_number(slots: usize, place: usize) -> usize
    ensures { result ≡ place_number slots place }
{
    if place < slots {
        return place;
    }
    slots
}
