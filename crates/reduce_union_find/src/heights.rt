// Two heights of module 1: which root is the higher, and how high it becomes when the other hangs under it.
ghost use Rattle.std.specs.Prelude.{◌≡◌, ◌+◌, min, max, ltb};

// Whether a root's height is larger than the other root's.
pub fn is_higher(height: u8, other: u8) -> bool
    ensures { result ≡ ltb other height }
{
    other < height
}

// The larger of a root's own height and the other's plus 1, as far as a byte holds it.
pub fn raised(height: u8, under: u8) -> u8
    ensures { result ≡ max height (min (under + 1) 255) }
{
    height.max(under.saturating_add(1))
}
