// What is decided of each choice: a slot, 255 for omitted, or nothing yet.
ghost use Rattle.std.specs.Prelude.{◌≡◌};
ghost use Rattle.search_candidates.specs.Allow.{decision_of};

// The byte of a choice that isn't decided yet.
pub const UNDECIDED: u8 = 254;

// A choice's slot, 255 or 254; a choice past the end is undecided.
pub(crate) fn decision_of(decisions: &[u8], choice: usize) -> u8
    ensures { result ≡ decision_of decisions.now choice }
{
    if decisions.len() <= choice {
        return UNDECIDED;
    }
    decisions[choice]
}
