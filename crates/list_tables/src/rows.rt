// The rows of every table are filled alike: each from the row after it, the row after the last choice first.
ghost use Rattle.std.specs.Prelude.{◌≡◌, ◌+◌, ◌≤◌, min, length};
ghost use Rattle.list_tables.specs.steps.Weights.{last_entry};
ghost use Rattle.list_tables.specs.steps.Tables.{tables_size, written, next_entry};

use super::shape::TABLES;

// The entry that stands for a lack that no set reaches.
pub const UNREACHED: u16 = 30000;

// The entry of the row after the last choice: with no choice left a lack of 0 is filled, and no other.
fn last_entry(lack: usize) -> u16
    ensures { result ≡ last_entry lack }
{
    if lack == 0 {
        return 0;
    }
    UNREACHED
}

// The smaller of an entry and another weight.
pub fn smaller_entry(entry: u16, weight: usize) -> u16
    ensures { result ≡ min entry weight }
{
    usize::from(entry).min(weight) as u16
}

// Writes the row after the last choice.
// The tables stand whole with the row's place and its count of entries, here and in fill_row, which reads the
// row after the one that it writes.
pub(crate) fn fill_last(at: usize, entries: usize, tables: &mut [u16; TABLES])
    requires { (at + entries ≤ tables_size) × (length tables.old ≡ tables_size) }
    ensures { tables.new ≡ written entries at last_entry tables.old }
{
    for lack in 0..entries {
        tables[at + lack] = last_entry(lack);
    }
}

// Writes a choice's row from the row after it, which starts a row's width later: each entry is the smaller of
// leaving the choice out and taking it, with the rest of the lack that its maximum leaves.
pub(crate) fn fill_row(
    at: usize,
    width: usize,
    entries: usize,
    weight: usize,
    most: usize,
    tables: &mut [u16; TABLES],
)
    requires { ((at + width + entries ≤ tables_size) × (entries ≤ width))
        × ((weight ≤ 65535) × (length tables.old ≡ tables_size)) }
    ensures { let before = tables.old in
        tables.new ≡ written entries at (next_entry width before at weight most) before }
{
    for lack in 0..entries {
        let without = tables[at + width + lack];
        let with = weight + usize::from(tables[at + width + lack.saturating_sub(most)]);
        tables[at + lack] = smaller_entry(without, with);
    }
}

// Lending the array as a slice tells a proof how long it is.
pub fn length_known(tables: &[u16]) {}
