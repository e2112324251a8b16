// Calls of other languages: a day read, written and reduced.
ghost use Rattle.std.specs.Prelude.{◌≡◌};
ghost use Rattle.thalluscrest_figures.specs.Crossing.{crossed, across};
ghost use Rattle.thalluscrest_figures.specs.Layouts.{day_figures, one_figure, reduced_across};
ghost use Rattle.reduce.specs.Reduction.{reduce_of};
ghost use Rattle.day_file.specs.Calls.{read_of};
ghost use Rattle.day_file.specs.FileDay.{parts, day};
ghost use Rattle.day_write.specs.Calls.{write_of};
ghost use Rattle.thalluscrest.specs.Counts.{counts_of, day_counts_of};

use day_file::counts::FileCounts;
use day_file::day::FileDay;
use day_file::read::read_day;
use day_rows::check::Counts;
use day_write::write::write_day;
use reduce::reduce;
use thalluscrest_figures::crossing::put;
use thalluscrest_figures::day::put_reduced;

// Reads a day file into pools lent at their full limits.
#[unsafe(no_mangle)]
pub extern "C" fn thalluscrest_read_day(
    file: &[u8],
    mins: &mut [u16],
    maxs: &mut [u16],
    optional: &mut [u8],
    levels: &mut [u16],
    preferences: &mut [u16],
    rows: &mut [u64],
    figures: &mut [u64; 8],
) -> u8
    ensures { let before =
        parts mins.old maxs.old optional.old
        levels.old preferences.old rows.old in
        let after =
        parts mins.new maxs.new optional.new
        levels.new preferences.new rows.new in
        crossed result figures.new after ≡ across day_figures (read_of file.now before) }
{
    let read = read_day(file, mins, maxs, optional, levels, preferences, rows);
    put(read, figures)
}

// Writes a day's file into a pool lent at its full limit.
#[unsafe(no_mangle)]
pub extern "C" fn thalluscrest_write_day(
    choices: usize,
    slots: usize,
    choosers: usize,
    mins: &[u16],
    maxs: &[u16],
    optional: &[u8],
    levels: &[u16],
    preferences: &[u16],
    rows: &[u64],
    file: &mut [u8],
    figures: &mut [u64; 8],
) -> u8
    ensures { let counts = day_counts_of choices slots choosers levels.now rows.now in
        let lists =
        parts mins.now maxs.now optional.now
        levels.now preferences.now rows.now in
        let after = crossed result figures.new file.new in
        after ≡ across one_figure (write_of (day counts lists) file.old) }
{
    let counts = FileCounts {
        choices,
        slots,
        choosers,
        levels: levels.len(),
        rows: rows.len(),
    };
    let day = FileDay {
        counts,
        mins,
        maxs,
        optional,
        levels,
        preferences,
        rows,
    };
    let written = write_day(&day, file);
    put(written, figures)
}

// Reduces given rows into a pool lent at its full limit.
#[unsafe(no_mangle)]
pub extern "C" fn thalluscrest_reduce(
    choices: usize,
    slots: usize,
    choosers: usize,
    rows: &[u64],
    pool: &mut [u64],
    figures: &mut [u64; 8],
) -> u8
    ensures { let counts = counts_of choices slots choosers rows.now in
        let after = crossed result figures.new pool.new in
        after ≡ reduced_across (reduce_of counts rows.now pool.old) }
{
    let counts = Counts {
        choices,
        slots,
        choosers,
        rows: rows.len(),
    };
    let reduced = reduce(counts, rows, pool);
    put_reduced(reduced, pool, figures)
}
