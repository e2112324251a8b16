// The refusals of the listing, lowest number first.
ghost use Rattle.std.specs.Prelude.{◌≡◌, ◌*◌, eqb};
ghost use Rattle.day_rows.specs.Told.{tells};
ghost use Rattle.plan_check.specs.Day.{day_lent};
ghost use Rattle.list_nodes.specs.Judge.{list_lengths_fit, judge_of};

use day_rows::check::{Takes, check_each_row, counts_in_range};
use day_rows::lists::flags_fit;
use day_rows::refusal::Refusal;
use plan_check::day::Day;

// Whether the lent buffer has C bytes for each plan that there is room for, whatever the room.
pub fn buffer_fits(choices: usize, room: u64, size: usize) -> bool
    ensures { result ≡ eqb size (room * choices) }
{
    if choices == 0 {
        return size == 0;
    }
    if size / choices < room as usize {
        return false;
    }
    size == room as usize * choices
}

// Whether 'every other slice .. at the length its counts give', and the buffer at that of its room.
fn lengths_fit(day: &Day, room: u64, size: usize) -> bool
    ensures { result ≡ list_lengths_fit (day_lent day.now) room size }
{
    let counts = day.counts;
    if day.mins.len() != counts.choices {
        return false;
    }
    if day.maxs.len() != counts.choices {
        return false;
    }
    if day.optional.len() != counts.choices {
        return false;
    }
    if day.rows.len() != counts.rows {
        return false;
    }
    buffer_fits(counts.choices, room, size)
}

// The refusals of a listing, lowest number first: 1, 2, 5 with the first bad row, 13.
pub fn judge(day: &Day, room: u64, size: usize) -> Result<(), Refusal>
    ensures { tells result ≡ judge_of (day_lent day.now) room size }
{
    if !counts_in_range(day.counts, Takes::Scheduling) {
        return Err(Refusal::Count);
    }
    if !lengths_fit(day, room, size) {
        return Err(Refusal::Length);
    }
    check_each_row(day.counts, Takes::Scheduling, day.rows)?;
    if !flags_fit(day.optional) {
        return Err(Refusal::Optional);
    }
    Ok(())
}
