// The lightest set of the day's last choices that fills a slot, by the rows of a table.
ghost use Rattle.std.specs.Prelude.{◌+◌, ◌<◌, ◌≤◌, length};
ghost use Rattle.list_tables.specs.steps.Tables.{weights_start};

use super::kinds::DayKinds;
use super::simplex::{COLUMN, weight_of};
use list_tables::rows::{UNREACHED, smaller_entry};
use list_tables::shape::{TABLES, WEIGHTS_START};

// A weight in parts of 2,520, to the nearest, and no more than 2,520: no weight is more than 1. Halves, thirds
// and the like up to tenths are whole numbers of such parts.
fn parts_of(weight: f64) -> u16 {
    std::num::saturating_f64_to_u16(weight * 2520.0 + 0.5).min(2520)
}

// Gives each choice the weight of its kind in a table.
pub(crate) fn weigh_choices(
    table: usize,
    kinds: &[usize],
    program: &[f64; 4416],
    tables: &mut [u16; TABLES],
)
    requires { (table < 4) × (length kinds.now ≤ 64) }
{
    for (choice, kind) in kinds.iter().enumerate() {
        tables[WEIGHTS_START + table * 64 + choice] = parts_of(weight_of(*kind, program));
    }
}

// Writes the row after the last choice: with no choice left a lack of 0 is filled, and no other.
fn fill_last(at: usize, choosers: usize, tables: &mut [u16; TABLES])
    requires { (at + 201 ≤ weights_start) × (choosers ≤ 200) }
{
    tables[at..at + choosers + 1].fill(UNREACHED);
    tables[at] = 0;
}

// Writes a choice's row from the row after it: each entry is the smaller of
// leaving the choice out and taking it.
fn fill_row(at: usize, choosers: usize, weight: usize, most: usize, tables: &mut [u16; TABLES])
    requires { (at + 402 ≤ weights_start) × ((choosers ≤ 200) × (weight ≤ 65535)) }
{
    for lack in 0..choosers + 1 {
        let without = tables[at + 201 + lack];
        let with = weight + usize::from(tables[at + 201 + lack.saturating_sub(most)]);
        tables[at + lack] = smaller_entry(without, with);
    }
}

// Fills the rows of a table from its last up to the first choice's: no row before that is asked for.
pub(crate) fn fill_rows(table: usize, first: usize, day: &DayKinds, tables: &mut [u16; TABLES])
    requires { table < 4 }
{
    let maxs = day.maxs;
    fill_last((table * 65 + maxs.len()) * 201, day.choosers, tables);
    for from in (first..maxs.len()).rev() {
        let weight = usize::from(tables[WEIGHTS_START + table * 64 + from]);
        fill_row(
            (table * 65 + from) * 201,
            day.choosers,
            weight,
            usize::from(maxs[from]),
            tables,
        );
    }
}

// What is left to fill after a choice, which is in the lightest set where its row
// differs from the row after it.
fn lack_after(
    at: usize,
    lack: usize,
    kind: usize,
    most: usize,
    tables: &[u16; TABLES],
    program: &mut [f64; 4416],
) -> usize
    requires { (at + 402 ≤ weights_start) × (lack ≤ 200) }
    ensures { result ≤ lack }
{
    if tables[at + lack] == tables[at + 201 + lack] {
        return lack;
    }
    if 64 <= kind {
        return lack;
    }
    program[COLUMN + kind] += 1.0;
    lack.saturating_sub(most)
}

// Counts how many choices of each kind the lightest set has, in the column that comes into the basis.
pub(crate) fn take_lightest(
    table: usize,
    first: usize,
    day: &DayKinds,
    tables: &[u16; TABLES],
    program: &mut [f64; 4416],
)
    requires { (table < 4) × (first ≤ length day.now.maxs.now) }
{
    let maxs = day.maxs;
    let mut lack = day.choosers;
    for choice in first..maxs.len() {
        lack = lack_after(
            (table * 65 + choice) * 201,
            lack,
            day.kinds[choice],
            usize::from(maxs[choice]),
            tables,
            program,
        );
    }
}
