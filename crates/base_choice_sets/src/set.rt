// What is asked of sets of choices. Every promise says it by which choices are in a set.
ghost use Rattle.std.specs.Prelude.{◌≡◌, cond};
ghost use Rattle.base_choice_sets.specs.Sets.{has, with_choice, within, same_choices, size_of};

// Whether the choice is in the set.
pub fn member(set: u64, choice: usize) -> bool
    ensures { result ≡ has set choice }
{
    if 64 <= choice {
        return false;
    }
    (set >> choice) & 1 == 1
}

// The set with one choice more; no choice is past 63.
pub fn with(set: u64, choice: usize) -> u64
    ensures { result ≡ with_choice set choice }
{
    if 64 <= choice {
        return set;
    }
    set | (1 << choice)
}

// The set with one choice more if that is to be in it, else the set as it was.
pub fn with_if(set: u64, choice: usize, inside: bool) -> u64
    ensures { result ≡ cond inside (with_choice set choice) set }
{
    if !inside {
        return set;
    }
    with(set, choice)
}

// Whether every choice of the inner set is in the outer one.
pub fn is_within(inner: u64, outer: u64) -> bool
    ensures { result ≡ within inner outer }
{
    (outer & inner) == inner
}

// Whether the two sets have the same choices.
pub fn is_same(one: u64, other: u64) -> bool
    ensures { result ≡ same_choices one other }
{
    one == other
}

// How many choices are in the set.
pub fn size(set: u64) -> usize
    ensures { result ≡ size_of set }
{
    set.count_ones() as usize
}
