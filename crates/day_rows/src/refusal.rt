// 'The numbers we hand back': one enum for every call, and 01's number for each of its cases.
ghost use Rattle.std.specs.Prelude.{◌≡◌};
ghost use Rattle.day_rows.specs.Refusal.{number_of};

// Why a call refuses its input. Row carries the first row that breaks the table.
#[derive(Clone, Copy, PartialEq, Eq)]
pub enum Refusal {
    Count,
    Length,
    Levels,
    Preference,
    Row(usize),
    TooMany,
    Sets,
    Orders,
    PlanCell,
    RosterCell,
    FileLength,
    Version,
    Optional,
    Map,
}

// 01's number of a refusal.
impl From<Refusal> for u8 {
    ghost from_gives = { λ why number. number ≡ number_of why };

    fn from(why: Refusal) -> u8 {
        match why {
            Refusal::Count => 1,
            Refusal::Length => 2,
            Refusal::Levels => 3,
            Refusal::Preference => 4,
            Refusal::Row(_) => 5,
            Refusal::TooMany => 6,
            Refusal::Sets => 7,
            Refusal::Orders => 8,
            Refusal::PlanCell => 9,
            Refusal::RosterCell => 10,
            Refusal::FileLength => 11,
            Refusal::Version => 12,
            Refusal::Optional => 13,
            Refusal::Map => 14,
        }
    }
}
