// The highest preference that a roster meets.
ghost use Rattle.std.specs.Prelude.{◌≡◌, ◌+◌, ◌≤◌, length, get_or};
ghost use Rattle.roster_check.specs.Sheet.{sheet_lent};
ghost use Rattle.roster_check.specs.Roster.{highest_below};
ghost use Rattle.roster_check.specs.Passes.{highest};
ghost use Rattle.roster_check.specs.steps.Shapes.{Judged};

use super::roster_check::Sheet;

// The preference at a place; 0 past the end.
fn preference_at(preferences: &[u16], at: usize) -> u16
    ensures { result ≡ get_or preferences.now at 0 }
{
    preferences.get(at).copied().unwrap_or(0)
}

// The highest preference that one chooser, whose preferences start at a place, has for what its cells name.
fn highest_of(preferences: &[u16], from: usize, cells: &[u8]) -> u16
    requires { from ≤ 12800 }
    ensures { result ≡ highest_below (length cells.now)
        (λ s. get_or preferences.now (from + get_or cells.now s 0) 0) }
{
    let mut highest = 0;
    for cell in cells {
        let met = preference_at(preferences, from + usize::from(*cell));
        highest = highest.max(met);
    }
    highest
}

// The highest of all choosers: 'the highest preference met, 0 for an empty roster'.
pub(crate) fn highest_met(sheet: &Sheet) -> u16
    requires { Judged (sheet_lent sheet.now) }
    ensures { result ≡ highest (sheet_lent sheet.now) }
{
    let counts = sheet.counts;
    let mut highest = 0;
    for chooser in 0..counts.choosers {
        let at = chooser * counts.slots;
        let end = at + counts.slots;
        let cells = &sheet.roster[at..end];
        let met = highest_of(sheet.preferences, chooser * counts.choices, cells);
        highest = highest.max(met);
    }
    highest
}
