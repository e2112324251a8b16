// The choice before the next one has taken its place: its domain holds that place alone.
ghost use Rattle.std.specs.Prelude.{◌≡◌};
ghost use Rattle.list_look.specs.steps.Look.{decided};

use list_domains::places::{only, place_number};
use plan_check::plan::slot_of;

// The domains once the last of so many choices stands at its place.
pub(crate) fn with_decided(
    slots: usize,
    choice: usize,
    plan: &[u8],
    domains: [u64; 64],
) -> [u64; 64]
    ensures { result ≡ decided slots plan.now choice domains }
{
    let mut seen = domains;
    if choice == 0 {
        return seen;
    }
    if 64 < choice {
        return seen;
    }
    let place = slot_of(plan, (choice - 1) as u16);
    seen[choice - 1] = only(place_number(slots, usize::from(place)));
    seen
}
