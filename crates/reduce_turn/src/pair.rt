// The row of a pair of choices.
ghost use Rattle.std.specs.Prelude.{◌≡◌};
ghost use Rattle.day_rows.specs.Row.{plain_row};

use day_rows::kind::Kind;
use day_rows::number::Choice;
use day_rows::row::Row;

// The kind 4 row of two choices: the one at the earlier position is left, also where it is the larger one.
pub fn pair_row(earlier: u16, later: u16) -> Row
    ensures { result ≡ plain_row 4 earlier later }
{
    let kind = Kind::CHOICES_ARE_NOT_IN_SAME_SLOT;
    Row::choice_choice(kind, Choice(earlier), Choice(later))
}
