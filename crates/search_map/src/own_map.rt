// The own map as a public call: 'Own map (added): every choice has an entry'.
ghost use Rattle.std.specs.Prelude.{◌≡◌};
ghost use Rattle.day_rows.specs.Told.{tells, outcome};
ghost use Rattle.search_map.specs.Map.{map_of, map_lent};
ghost use Rattle.search_map.specs.Calls.{own_judged, own_map_of};
ghost use Rattle.search_map.specs.steps.Filling.{PoolsFull, Cleared, Entered, OwnMapFilled};

use super::entry::add_entry;
use super::map::{MOST_NUMBERS, Map, is_full};
use day_rows::check::{Counts, Takes, check_each_row, counts_in_range};
use day_rows::refusal::Refusal;

// Every choice's entry written, one after another; the answer is how many numbers the entries have, past the
// pool's room too.
fn add_entries(
    choices: usize,
    rows: &[u64],
    starts: &mut [u16],
    lengths: &mut [u16],
    numbers: &mut [u16],
) -> usize
    requires { PoolsFull choices rows.now starts.old lengths.old numbers.old }
    ensures { let before = map_of starts.old lengths.old numbers.old in
        let after = map_of starts.new lengths.new numbers.new in
        Entered choices rows.now before result after }
{
    let mut at = 0;
    for choice in 0..choices {
        let after = add_entry(choice, rows, numbers, at);
        starts[choice] = at as u16;
        lengths[choice] = (after - at) as u16;
        at = after;
    }
    at
}

// Zeros in all three pools of a map.
fn clear(starts: &mut [u16], lengths: &mut [u16], numbers: &mut [u16])
    ensures { let before = map_of starts.old lengths.old numbers.old in
        let after = map_of starts.new lengths.new numbers.new in
        Cleared before after }
{
    starts.fill(0);
    lengths.fill(0);
    numbers.fill(0);
}

// The pools filled with the own map, or all zero where the map has too many numbers; the answer is how many
// numbers it has.
fn fill(
    choices: usize,
    rows: &[u64],
    starts: &mut [u16],
    lengths: &mut [u16],
    numbers: &mut [u16],
) -> usize
    requires { PoolsFull choices rows.now starts.old lengths.old numbers.old }
    ensures { let after = map_of starts.new lengths.new numbers.new in
        OwnMapFilled choices rows.now result after }
{
    clear(starts, lengths, numbers);
    let count = add_entries(choices, rows, starts, lengths, numbers);
    if count <= MOST_NUMBERS {
        return count;
    }
    clear(starts, lengths, numbers);
    count
}

// The own map's refusals that leave the pools untouched, lowest number first: 1, 2, 5 with the first bad row.
fn judge(counts: Counts, rows: &[u64], pools: &Map) -> Result<(), Refusal>
    ensures { tells result ≡ own_judged counts rows.now (map_lent pools.now) }
{
    if !counts_in_range(counts, Takes::Scheduling) {
        return Err(Refusal::Count);
    }
    if rows.len() != counts.rows {
        return Err(Refusal::Length);
    }
    if !is_full(pools) {
        return Err(Refusal::Length);
    }
    check_each_row(counts, Takes::Scheduling, rows)
}

// The own map of a list of rows, in lent pools: how many numbers it has.
pub fn own_map(
    counts: Counts,
    rows: &[u64],
    starts: &mut [u16],
    lengths: &mut [u16],
    numbers: &mut [u16],
) -> Result<usize, Refusal>
    ensures { let before = map_of starts.old lengths.old numbers.old in
        let after = map_of starts.new lengths.new numbers.new in
        outcome (tells result) after ≡ own_map_of counts rows.now before }
{
    let pools = Map {
        starts,
        lengths,
        numbers,
    };
    judge(counts, rows, &pools)?;
    let count = fill(counts.choices, rows, starts, lengths, numbers);
    if MOST_NUMBERS < count {
        return Err(Refusal::TooMany);
    }
    Ok(count)
}
