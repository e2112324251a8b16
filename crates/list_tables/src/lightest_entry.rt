// A least weight of so many choices as it is read.
ghost use Rattle.std.specs.Prelude.{◌≡◌, ◌≤◌};
ghost use Rattle.list_tables.specs.steps.Lightest.{lightest_at};

use super::shape::{LIGHTEST_START, TABLES};

// The least weight of so many of the choices from a first one on, in a table: 0 of none, and past the shape.
pub fn lightest_at(tables: &[u16; TABLES], table: usize, from: usize, count: usize) -> usize
    ensures { (result ≡ lightest_at tables.now table from count) × (result ≤ 65535) }
{
    if count == 0 {
        return 0;
    }
    if 4 <= table {
        return 0;
    }
    if 65 <= from {
        return 0;
    }
    if 65 <= count {
        return 0;
    }
    usize::from(tables[LIGHTEST_START + (table * 65 + from) * 65 + count])
}
