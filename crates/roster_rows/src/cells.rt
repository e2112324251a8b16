// The cells of a chooser, and what they name.
ghost use Rattle.std.specs.Prelude.{◌≡◌, ◌≤◌, length, eqb};
ghost use Rattle.base_lists.specs.Group.{times_in};
ghost use Rattle.base_lists.specs.Keep.{any_of};
ghost use Rattle.roster_rows.specs.Cells.{cells_of};
ghost use Rattle.roster_rows.specs.Roster.{roster_lent};
ghost use Rattle.roster_rows.specs.steps.Shapes.{Shaped, Tally};

use super::roster::Roster;

// The cells of a chooser; a chooser past the last has none.
pub(crate) fn cells_of<'a>(roster: &Roster<'a>, chooser: usize) -> &'a [u8]
    requires { Shaped (roster_lent roster.now) }
    ensures { let roster = roster_lent roster.now in
        result.now ≡ cells_of roster.slots roster.cells chooser }
{
    if roster.choosers <= chooser {
        return &[];
    }
    let from = chooser * roster.slots;
    let end = from + roster.slots;
    &roster.cells[from..end]
}

// How often the cells name a choice.
pub(crate) fn times_in(choice: u16, cells: &[u8]) -> usize
    ensures { result ≡ times_in choice cells.now }
{
    let mut times = 0;
    for cell in cells {
        if u16::from(*cell) == choice {
            times += 1;
        }
    }
    times
}

// 'chooser there': whether one of the cells names a choice.
pub(crate) fn is_there(choice: u16, cells: &[u8]) -> bool
    ensures { result ≡ any_of (eqb choice) cells.now }
{
    cells.iter().any(|cell| u16::from(*cell) == choice)
}

// How often the cells name each byte.
pub(crate) fn tally(cells: &[u8]) -> [u8; 256]
    requires { length cells.now ≤ 24 }
    ensures { Tally cells.now result }
{
    let mut times = [0u8; 256];
    for cell in cells {
        times[usize::from(*cell)] += 1;
    }
    times
}
