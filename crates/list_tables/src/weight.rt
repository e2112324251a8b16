// What a choice weighs in each table.
ghost use Rattle.std.specs.Prelude.{◌≡◌, ◌≤◌, length};
ghost use Rattle.list_tables.specs.steps.Tables.{tables_size, weight_at, with_ones};

use super::shape::{TABLES, WEIGHTS_START};

// A choice's weight in a table: 0 past the tables' shape.
pub fn weight_at(tables: &[u16; TABLES], table: usize, choice: usize) -> usize
    ensures { (result ≡ weight_at tables.now table choice) × (result ≤ 65535) }
{
    if 4 <= table {
        return 0;
    }
    if 64 <= choice {
        return 0;
    }
    usize::from(tables[WEIGHTS_START + table * 64 + choice])
}

// Gives each choice the weight 1 in table 0.
pub(crate) fn set_ones(tables: &mut [u16; TABLES])
    requires { length tables.old ≡ tables_size }
    ensures { tables.new ≡ with_ones tables.old }
{
    for choice in 0..64 {
        tables[WEIGHTS_START + choice] = 1;
    }
}
