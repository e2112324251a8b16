// Kind 5: one side's slots moved by the offset are those that the other side can take.
ghost use Rattle.std.specs.Prelude.{◌≡◌};
ghost use Rattle.list_rule_rows.specs.steps.RowRules.{facing_places};
ghost use Rattle.list_rule_rows.specs.steps.Moves.{slots_up, slots_down, with_omission};

use list_domains::places::{both, first_domain, only};

// The slots of a domain, each moved so much higher; what leaves the day's slots is gone.
fn moved_up(slots: usize, domain: u64, by: usize) -> u64
    ensures { result ≡ slots_up slots domain by }
{
    if 64 <= by {
        return 0;
    }
    (domain << by) & first_domain(slots, 0)
}

// The slots of a domain, each moved so much lower; what leaves the day's slots is gone.
fn moved_down(slots: usize, domain: u64, by: usize) -> u64
    ensures { result ≡ slots_down slots domain by }
{
    if 64 <= by {
        return 0;
    }
    (domain & first_domain(slots, 0)) >> by
}

// The moved slots, with omission if the domain has it: omission is not moved.
fn with_omission(slots: usize, moved: u64, domain: u64) -> u64
    ensures { result ≡ with_omission slots moved domain }
{
    moved | (domain & only(slots))
}

// The places of one side that the other side can face, which is so much higher and so much lower.
pub(crate) fn facing_places(slots: usize, domain: u64, other: u64, up: usize, down: usize) -> u64
    ensures { result ≡ facing_places slots domain other up down }
{
    let moved = if up <= down {
        moved_up(slots, other, down - up)
    } else {
        moved_down(slots, other, up - down)
    };
    both(domain, with_omission(slots, moved, other))
}
