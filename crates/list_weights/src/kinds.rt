// Choices of one size are of one kind: the linear program has a row for each kind, not for each choice.
ghost use Rattle.std.specs.Prelude.{◌≡◌, ◌+◌, ◌≤◌, length};

// The day that weights are fitted to: its choosers, each choice's maximum, each kind's size and each choice's
// kind.
#[derive(Clone, Copy)]
pub(crate) struct DayKinds<'a> {
    pub choosers: usize,
    pub maxs: &'a [u16],
    pub sizes: &'a [usize],
    pub kinds: &'a [usize],
    ghost in_range: { (choosers ≤ 200) × (length maxs.now ≤ 64) },
    ghost of_choices: { (length sizes.now ≤ 64) × (length kinds.now ≡ length maxs.now) },
}

// How many heads of a choice count in a slot: no more than there are choosers.
pub(crate) fn size_of(most: u16, choosers: usize) -> usize
    ensures { result ≤ 65535 }
{
    usize::from(most).min(choosers)
}

// The first choice of the day's end: the last from which on the choices can fill so
// many slots, 0 if there is none.
pub(crate) fn first_of(slots: usize, choosers: usize, maxs: &[u16]) -> usize
    requires { (slots ≤ 24) × (choosers ≤ 200) }
    ensures { result ≤ length maxs.now }
{
    let mut lack = slots * choosers;
    for choice in (0..maxs.len()).rev() {
        if lack == 0 {
            return choice + 1;
        }
        lack = lack.saturating_sub(size_of(maxs[choice], choosers));
    }
    0
}

// The kind of a size among the known ones, the next number for a new size.
fn kind_of(size: usize, sizes: &[usize]) -> usize
    ensures { result ≤ length sizes.now }
{
    sizes
        .iter()
        .position(|known_size| *known_size == size)
        .unwrap_or(sizes.len())
}

// Numbers the sizes in the order in which the choices bring them: each kind's size, each choice's
// kind, and how many kinds there are.
pub(crate) fn number_kinds(
    choosers: usize,
    maxs: &[u16],
    sizes: &mut [usize; 64],
    kinds: &mut [usize; 64],
) -> usize
    requires { length maxs.now ≤ 64 }
    ensures { result ≤ 64 }
{
    let mut known = 0;
    for (choice, most) in maxs.iter().enumerate() {
        let size = size_of(*most, choosers);
        let kind = kind_of(size, &sizes[..known]);
        sizes[kind] = size;
        kinds[choice] = kind;
        known = known.max(kind + 1);
    }
    known
}

// How many choices of each kind the day's end has, by the kinds of its choices.
pub(crate) fn count_kinds(kinds: &[usize], many: &mut [u16; 64]) {
    for kind in kinds {
        if *kind < 64 {
            many[*kind] = many[*kind].wrapping_add(1);
        }
    }
}
