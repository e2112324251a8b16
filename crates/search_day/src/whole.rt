// The whole list: the numbers of all rows.
ghost use Rattle.std.specs.Prelude.{◌≡◌, min, ◌≤◌, length, take};
ghost use Rattle.base_lists.specs.Flat.{list_below};

// The most rows, which is as many as the whole list has room for.
const MOST_ROWS: usize = 1024;

// How many numbers the whole list has: one for each row, as many as there is room for.
pub(crate) fn whole_length(rows: usize) -> usize
    ensures { result ≡ min rows 1024 }
{
    rows.min(MOST_ROWS)
}

// The whole list, 0, 1, 2 .., in the first places of a lent pool: handed back by value it would stand on the
// stack twice.
pub(crate) fn count_up(size: usize, whole: &mut [u16; 1024])
    requires { size ≤ 1024 }
    ensures { (length whole.new ≡ 1024) × (take size whole.new ≡ list_below size (λ i. i)) }
{
    for i in 0..size {
        whole[i] = i as u16;
    }
}
