// The rows between two choices, kinds 3, 4 and 5, where one of the two has the tried place.
ghost use Rattle.std.specs.Prelude.{◌≡◌, [], ◌∷◌};
ghost use Rattle.day_rows.specs.Row.{row_of};
ghost use Rattle.plan_check.specs.Rows.{slots_differ, offset_kept};
ghost use Rattle.search_candidates.specs.Allow.{ends_keep, pair_allows};

use super::decision::{UNDECIDED, decision_of};
use day_rows::kind::Kind;
use day_rows::row::Row;
use plan_check::plan::OMITTED;

// Kind 4: two omitted choices stand in no slot, so they pass.
fn ends_differ(left: u8, right: u8) -> bool
    ensures { result ≡ slots_differ (left ∷ right ∷ []) 0 1 }
{
    if left == OMITTED {
        return true;
    }
    left != right
}

// Kind 5: the offset is kept 32,768 higher, so both sides are compared that much higher and need no sign.
fn ends_have_offset(left: u8, right: u8, extra: u16) -> bool
    ensures { result ≡ offset_kept (left ∷ right ∷ []) 0 1 extra }
{
    if left == OMITTED {
        return right == OMITTED;
    }
    if right == OMITTED {
        return false;
    }
    right as u32 + 32_768 == left as u32 + extra as u32
}

// Whether the places of its left and right keep a number's row.
fn ends_keep(number: u64, left: u8, right: u8) -> bool
    ensures { result ≡ ends_keep (row_of number) left right }
{
    match Row::kind_of(number) {
        Kind::CHOICES_ARE_IN_SAME_SLOT => left == right,
        Kind::CHOICES_ARE_NOT_IN_SAME_SLOT => ends_differ(left, right),
        Kind::CHOICES_HAVE_OFFSET => ends_have_offset(left, right, Row::extra_of(number)),
        _ => false,
    }
}

// Whether a number's row allows the place beside the other choice: left, unless left is this one.
pub(crate) fn pair_allows(decisions: &[u8], choice: usize, place: u8, number: u64) -> bool
    ensures { result ≡ pair_allows decisions.now choice place (row_of number) }
{
    let left = usize::from(Row::left_of(number));
    if left != choice {
        let other = decision_of(decisions, left);
        if other == UNDECIDED {
            return true;
        }
        return ends_keep(number, other, place);
    }
    let other = decision_of(decisions, usize::from(Row::right_of(number)));
    if other == UNDECIDED {
        return true;
    }
    ends_keep(number, place, other)
}
