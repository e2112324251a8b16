// The weights of tables 1 to 3. By the linear program's weights a day's last choices are seen to be too few
// as early as linear programming can see it.
ghost use Rattle.std.specs.Prelude.{◌≡◌, ◌<◌, ◌≤◌, length};
ghost use Rattle.list_tables.specs.steps.Tables.{tables_size};

use super::absent::weigh_absent;
use super::kinds::{DayKinds, count_kinds, first_of, number_kinds, size_of};
use super::lightest::{fill_rows, take_lightest, weigh_choices};
use super::simplex::{COLUMN, bring_column, start, weigh_kinds};
use day_rows::check::Counts;
use list_tables::rows::length_known;
use list_tables::shape::{TABLES, WEIGHTS_START};

// A set that weighs so much is not too light: 1 in parts of 2,520, less what rounding may take.
const ENOUGH: u16 = 2518;

// Gives each choice its heads as its weight in table 1.
fn weigh_heads(choosers: usize, maxs: &[u16], tables: &mut [u16; TABLES])
    requires { length maxs.now ≤ 64 }
{
    for (choice, most) in maxs.iter().enumerate() {
        tables[WEIGHTS_START + 64 + choice] = size_of(*most, choosers) as u16;
    }
}

// Brings the set that is too light by the weights so far into the basis, counted in a column that is emptied
// first: false where no set is.
fn bring_in(
    table: usize,
    first: usize,
    day: &DayKinds,
    tables: &mut [u16; TABLES],
    program: &mut [f64; 4416],
) -> bool
    requires { (table < 4) × (first ≤ length day.now.maxs.now) }
{
    let known = day.sizes.len();
    weigh_kinds(known, program);
    weigh_choices(table, day.kinds, program, tables);
    fill_rows(table, first, day, tables);
    if ENOUGH <= tables[(table * 65 + first) * 201 + day.choosers] {
        return false;
    }
    program[COLUMN..COLUMN + known].fill(0.0);
    take_lightest(table, first, day, tables, program);
    bring_column(known, program)
}

// Brings sets into the basis until none is too light, 60 sets at most.
fn bring_all(
    table: usize,
    first: usize,
    day: &DayKinds,
    tables: &mut [u16; TABLES],
    program: &mut [f64; 4416],
)
    requires { (table < 4) × (first ≤ length day.now.maxs.now) }
{
    for _ in 0..60 {
        if !bring_in(table, first, day, tables, program) {
            return;
        }
    }
}

// Fits a table's weights to the day's end: the choices that can fill the last so many slots and no more.
fn fit_table(table: usize, slots: usize, day: &DayKinds, tables: &mut [u16; TABLES])
    requires { (table < 4) × (slots ≤ 24) }
{
    let first = first_of(slots, day.choosers, day.maxs);
    let known = day.sizes.len();
    let mut counted = [0u16; 64];
    count_kinds(&day.kinds[first..], &mut counted);
    let many = &counted[..known];
    let mut program = [0.0f64; 4416];
    start(many, &mut program);
    bring_all(table, first, day, tables, &mut program);
    weigh_kinds(known, &mut program);
    weigh_absent(day.sizes, many, &mut program);
    weigh_choices(table, day.kinds, &program, tables);
}

// Chooses the weights of a day with choosers: heads in table 1, then in tables 2 and 3 those by which the
// choices for all slots but one, and for all but two, are worth least.
fn fit_day(slots: usize, choosers: usize, maxs: &[u16], tables: &mut [u16; TABLES])
    requires { (slots ≤ 24) × ((choosers ≤ 200) × (length maxs.now ≤ 64)) }
{
    weigh_heads(choosers, maxs, tables);
    let mut sizes = [0usize; 64];
    let mut kinds = [0usize; 64];
    let known = number_kinds(choosers, maxs, &mut sizes, &mut kinds);
    let day = DayKinds {
        choosers,
        maxs,
        sizes: &sizes[..known],
        kinds: &kinds[..maxs.len()],
    };
    if slots < 2 {
        return;
    }
    fit_table(2, slots - 1, &day, tables);
    if slots < 3 {
        return;
    }
    fit_table(3, slots - 2, &day, tables);
}

// Chooses each choice's weight in tables 1 to 3: heads in table 1, in 2 and 3 weights by which the choices at
// the day's end are worth least.
pub fn fit_weights(counts: Counts, maxs: &[u16], tables: &mut [u16; TABLES])
    ensures { length tables.new ≡ tables_size }
{
    length_known(tables);
    if 64 < counts.choices {
        return;
    }
    if 200 < counts.choosers {
        return;
    }
    if counts.choosers == 0 {
        return;
    }
    if 24 < counts.slots {
        return;
    }
    if maxs.len() != counts.choices {
        return;
    }
    fit_day(counts.slots, counts.choosers, maxs, tables);
    length_known(tables);
}
