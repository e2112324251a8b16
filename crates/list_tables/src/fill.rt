// The four tables are filled row by row, the row after the last choice first.
ghost use Rattle.std.specs.Prelude.{◌≡◌, ◌≤◌, ◌<◌, length, replicate};
ghost use Rattle.plan_check.specs.Day.{day_lent};
ghost use Rattle.list_tables.specs.steps.Tables.{tables_size, Fills, Filling, FirstFilled, with_ones};

use super::rows::{fill_last, fill_row, length_known};
use super::shape::TABLES;
use super::weight::{set_ones, weight_at};
use plan_check::day::Day;

// Room for the tables and their weights, all 0.
// A function and no array at the call: docs/PROMISES.md names it with what it promises.
pub fn no_tables() -> [u16; TABLES]
    ensures { result ≡ replicate tables_size 0 }
{
    [0u16; TABLES]
}

// Fills one table by the weights that stand there, from its last row to its first.
fn fill_table(day: &Day, table: usize, tables: &mut [u16; TABLES])
    requires choices_bound { let day = day_lent day.now in
        ((day.counts.choices ≤ 64) × (day.counts.choosers ≤ 200))
        × ((table < 4) × (length day.maxs ≡ day.counts.choices)) }
    requires tables_len { length tables.old ≡ tables_size }
    ensures { let day = day_lent day.now in
        Filling day.counts day.maxs tables.old table 0 tables.new }
{
    let counts = day.counts;
    let maxs = day.maxs;
    let entries = counts.choosers + 1;
    fill_last((table * 65 + counts.choices) * 201, entries, tables);
    for from in (0..counts.choices).rev() {
        let most = usize::from(maxs[from]);
        let weight = weight_at(tables, table, from);
        fill_row(
            (table * 65 + from) * 201,
            201,
            entries,
            weight,
            most,
            tables,
        );
    }
}

// Fills the four tables one after the other, where each choice weighs 1 in table 0.
fn fill_each(day: &Day, tables: &mut [u16; TABLES])
    requires { let day = day_lent day.now in
        ((day.counts.choices ≤ 64) × (day.counts.choosers ≤ 200))
        × ((length day.maxs ≡ day.counts.choices) × (length tables.old ≡ tables_size)) }
    ensures { let day = day_lent day.now in
        FirstFilled day.counts day.maxs (with_ones tables.old) 4 tables.new }
{
    set_ones(tables);
    for table in 0..4 {
        fill_table(day, table, tables);
    }
}

// Fills the tables of a day that they hold, only the rows and entries that the day uses; of
// another day nothing is written.
pub fn fill_tables(day: &Day, tables: &mut [u16; TABLES])
    ensures { let day = day_lent day.now in
        Fills day.counts day.maxs tables.old tables.new }
{
    if 64 < day.counts.choices {
        return;
    }
    if 200 < day.counts.choosers {
        return;
    }
    if day.maxs.len() != day.counts.choices {
        return;
    }
    length_known(tables);
    fill_each(day, tables);
}
