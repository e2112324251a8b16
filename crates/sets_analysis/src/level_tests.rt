// The small tests of module 4 that need no set: two levels against each other, and all slots but one.
ghost use Rattle.std.specs.Prelude.{◌≡◌, ◌-◌, leb};

// 'covered: level not higher': a set of this level against one of another.
pub fn is_not_higher(level: u16, other: u16) -> bool
    ensures { result ≡ leb level other }
{
    level <= other
}

// 'of that level or above': a set's level against a level.
pub fn is_at_or_above(set_level: u16, level: u16) -> bool
    ensures { result ≡ leb level set_level }
{
    set_level >= level
}

// The S-1 of 'H*(S-1), 0 for S = 0'.
pub fn all_but_one(slots: usize) -> usize
    ensures { result ≡ slots - 1 }
{
    slots.saturating_sub(1)
}
