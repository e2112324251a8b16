// An entry of the tables as it is read.
ghost use Rattle.std.specs.Prelude.{◌≡◌, ◌-◌, ◌≤◌};
ghost use Rattle.list_tables.specs.steps.Tables.{entry_at};

use super::shape::TABLES;

// The entry of a table for a first choice and a lack: 0 past the tables' shape.
pub fn least_at(tables: &[u16; TABLES], table: usize, from: usize, lack: usize) -> usize
    ensures { (result ≡ entry_at tables.now table from lack) × (result ≤ 65535) }
{
    if 4 <= table {
        return 0;
    }
    if 65 <= from {
        return 0;
    }
    if 201 <= lack {
        return 0;
    }
    usize::from(tables[(table * 65 + from) * 201 + lack])
}
