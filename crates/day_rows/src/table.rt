// The one table of the sixteen kinds, below the rows that it judges.
ghost use Rattle.std.specs.Prelude.{◌≡◌};
ghost use Rattle.day_rows.specs.Kinds.{columns_of};

// Which lists a kind may stand in: none, a day's given rows alone, or also the search's or the roster's list.
#[derive(Clone, Copy, PartialEq, Eq)]
pub enum Part {
    Refused,
    GivenOnly,
    Scheduling,
    Assignment,
}

// What a column of a row names.
#[derive(Clone, Copy, PartialEq, Eq)]
pub enum Name {
    None,
    Choice,
    Slot,
    Chooser,
    Limit,
    Offset,
    Op,
}

// A line of the table: where the kind may stand, and what left, right and extra name.
#[derive(Clone, Copy, PartialEq, Eq)]
pub struct Columns(pub Part, pub Name, pub Name, pub Name);

// 'One table of the sixteen kinds fixes what each column may hold': the entry at a kind's code.
const KINDS: [Columns; 16] = [
    Columns(Part::Refused, Name::None, Name::None, Name::None),
    Columns(Part::Scheduling, Name::Choice, Name::Slot, Name::None),
    Columns(Part::Scheduling, Name::Choice, Name::Slot, Name::None),
    Columns(Part::Scheduling, Name::Choice, Name::Choice, Name::None),
    Columns(Part::Scheduling, Name::Choice, Name::Choice, Name::None),
    Columns(Part::Scheduling, Name::Choice, Name::Choice, Name::Offset),
    Columns(Part::Scheduling, Name::Slot, Name::Limit, Name::Op),
    Columns(Part::GivenOnly, Name::Slot, Name::Choice, Name::None),
    Columns(Part::GivenOnly, Name::Slot, Name::Choice, Name::None),
    Columns(Part::GivenOnly, Name::Slot, Name::Slot, Name::None),
    Columns(Part::Assignment, Name::Choice, Name::Choice, Name::None),
    Columns(Part::Assignment, Name::Chooser, Name::Choice, Name::None),
    Columns(Part::Assignment, Name::Chooser, Name::Choice, Name::None),
    Columns(Part::Assignment, Name::Chooser, Name::Chooser, Name::None),
    Columns(Part::GivenOnly, Name::Choice, Name::Chooser, Name::None),
    Columns(Part::GivenOnly, Name::Choice, Name::Chooser, Name::None),
];

impl Columns {
    // The table's line for a code; a code past the table is refused as kind 0 is.
    pub fn of(kind: u16) -> Columns
        ensures { result ≡ columns_of kind }
    {
        let at = kind as usize;
        if 16 <= at {
            return Columns(Part::Refused, Name::None, Name::None, Name::None);
        }
        KINDS[at]
    }
}
