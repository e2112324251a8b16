// Each chooser's slots and each choice's seats.
ghost use Rattle.std.specs.Prelude.{◌≡◌, ◌≤◌, length};
ghost use Rattle.base_lists.specs.Below.{all_below};
ghost use Rattle.roster_rows.specs.Cells.{cells_of};
ghost use Rattle.roster_rows.specs.steps.Shapes.{Tally};
ghost use Rattle.roster_rows.specs.Seats.{slots_apart};
ghost use Rattle.roster_check.specs.Sheet.{sheet_lent};
ghost use Rattle.roster_check.specs.Roster.{seats_fit};
ghost use Rattle.roster_check.specs.steps.Shapes.{Judged};

use super::roster_check::Sheet;
use roster_rows::seats::{choice_fits, slots_apart};

// Whether the slots of every chooser's choices differ.
pub(crate) fn all_apart(sheet: &Sheet) -> bool
    requires { Judged (sheet_lent sheet.now) }
    ensures { let sheet = sheet_lent sheet.now in
        result ≡ all_below sheet.counts.choosers
        (λ chooser. slots_apart sheet.plan (cells_of sheet.counts.slots sheet.roster chooser)) }
{
    let counts = sheet.counts;
    for chooser in 0..counts.choosers {
        let at = chooser * counts.slots;
        let end = at + counts.slots;
        if !slots_apart(sheet.plan, &sheet.roster[at..end]) {
            return false;
        }
    }
    true
}

// Every choice's seats: how many cells of a roster name it.
fn count_seats(roster: &[u8]) -> [u16; 256]
    requires { length roster.now ≤ 4800 }
    ensures { Tally roster.now result }
{
    let mut seats = [0u16; 256];
    for cell in roster {
        seats[usize::from(*cell)] += 1;
    }
    seats
}

// Whether every choice has min to max seats, or is omitted.
pub(crate) fn seats_fit(sheet: &Sheet) -> bool
    requires { Judged (sheet_lent sheet.now) }
    ensures { let sheet = sheet_lent sheet.now in
        result ≡ all_below sheet.counts.choices
        (seats_fit sheet.mins sheet.maxs sheet.plan sheet.roster) }
{
    let mins = sheet.mins;
    let maxs = sheet.maxs;
    let seats = count_seats(sheet.roster);
    for (choice, place) in sheet.plan.iter().enumerate() {
        if !choice_fits(*place, mins[choice], maxs[choice], seats[choice]) {
            return false;
        }
    }
    true
}
