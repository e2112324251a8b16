// The slots of a chooser's cells, and the seats of a choice.
ghost use Rattle.std.specs.Prelude.{◌≡◌, ◌&&◌, ◌||◌, ◌≤◌, eqb, leb};
ghost use Rattle.plan_check.specs.Plan.{slot_of};
ghost use Rattle.roster_rows.specs.Seats.{slots_apart};

use plan_check::plan::{OMITTED, slot_of};

// The slot of a cell's choice, as an index; 255 for none.
fn slot_at(plan: &[u8], cell: u8) -> usize
    ensures { (result ≡ slot_of plan.now cell) × (result ≤ 255) }
{
    usize::from(slot_of(plan, u16::from(cell)))
}

// 'The scheduled slots of a chooser's choices must differ': no slot is met twice.
pub fn slots_apart(plan: &[u8], cells: &[u8]) -> bool
    ensures { result ≡ slots_apart plan.now cells.now }
{
    let mut met = [false; 256];
    for cell in cells {
        let slot = slot_at(plan, *cell);
        if met[slot] {
            return false;
        }
        met[slot] = true;
    }
    true
}

// 'Each scheduled choice has min to max seats'; an omitted one may have any.
pub fn choice_fits(place: u8, least: u16, most: u16, seats: u16) -> bool
    ensures { result ≡ (eqb place 255 || (leb least seats && leb seats most)) }
{
    if place == OMITTED {
        return true;
    }
    if seats < least {
        return false;
    }
    seats <= most
}
