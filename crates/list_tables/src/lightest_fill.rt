// The least weights of so many choices are filled as the tables are, with 1 as every choice's maximum: row by
// row, the row after the last choice first.
ghost use Rattle.std.specs.Prelude.{◌≡◌, ◌≤◌, ◌<◌, length};
ghost use Rattle.list_tables.specs.steps.Tables.{tables_size};
ghost use Rattle.list_tables.specs.steps.Lightest.{FillsLightest};
ghost use Rattle.list_tables.specs.steps.Filling.{Filling, FirstFilled};

use super::rows::{fill_last, fill_row, length_known};
use super::shape::{LIGHTEST_START, TABLES};
use super::weight::weight_at;

// Fills the least weights of one table by the weights that stand there, from the last row to the first.
// Beside fill's and not one with it: that one's promise speaks of the day's maximums, this one's of counts alone.
fn fill_table(choices: usize, table: usize, tables: &mut [u16; TABLES])
    requires { ((choices ≤ 64) × (table < 4)) × (length tables.old ≡ tables_size) }
    ensures { Filling choices tables.old table 0 tables.new }
{
    fill_last(
        LIGHTEST_START + (table * 65 + choices) * 65,
        choices + 1,
        tables,
    );
    for from in (0..choices).rev() {
        let most = 1;
        let weight = weight_at(tables, table, from);
        fill_row(
            LIGHTEST_START + (table * 65 + from) * 65,
            65,
            choices + 1,
            weight,
            most,
            tables,
        );
    }
}

// Fills the least weights of the four tables, one table after the other.
fn fill_each(choices: usize, tables: &mut [u16; TABLES])
    requires { (choices ≤ 64) × (length tables.old ≡ tables_size) }
    ensures { FirstFilled choices tables.old 4 tables.new }
{
    for table in 0..4 {
        fill_table(choices, table, tables);
    }
}

// Fills the least weights of at most 64 choices by the weights that stand there, only the rows and entries
// that they use; of more choices nothing is written.
pub fn fill_lightest(choices: usize, tables: &mut [u16; TABLES])
    ensures { FillsLightest choices tables.old tables.new }
{
    if 64 < choices {
        return;
    }
    length_known(tables);
    fill_each(choices, tables);
}
