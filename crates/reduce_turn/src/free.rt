// Writing into the free end of a pool: 'New rows go into the free end of the lent pool.'
ghost use Rattle.std.specs.Prelude.{◌≡◌, ◌+◌, length, set};
ghost use Rattle.reduce_turn.specs.steps.Free.{Wrote, Put};

// The free end of a pool, and the place in it of the next row. Past the end the place alone goes on, so that
// it tells how many rows there are.
#[derive(Drop)]
pub struct Free<'a> {
    pub rows: &'a mut [u64],
    pub at: usize,
}

impl Free<'_> {
    // Writes a row at the next place, if the end has it; the place goes on as far as a number does.
    pub fn put(&mut self, row: u64)
        ensures { Put self.old row self.new }
    {
        store(self.rows, self.at, row);
        self.at = self.at.saturating_add(1);
    }
}

// Writes a row at a place of the free end, if the end has it.
fn store(free: &mut [u64], at: usize, row: u64)
    ensures { free.new ≡ set free.old at row }
{
    if at < free.len() {
        free[at] = row;
    }
}

// Writes rows into the free end from its start on; the answer is how many they are.
pub fn copy(rows: &[u64], free: &mut [u64]) -> usize
    ensures { Wrote free.old 0 rows.now result free.new }
{
    for (i, row) in rows.iter().enumerate() {
        store(free, i, *row);
    }
    rows.len()
}
