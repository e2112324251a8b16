// The lookup as a public call.
ghost use Rattle.std.specs.Prelude.{◌≡◌};
ghost use Rattle.day_rows.specs.Told.{tells};
ghost use Rattle.search_map.specs.Map.{map_lent};
ghost use Rattle.search_map.specs.Calls.{lookup_in_range, lookup_judged, looked, lookup_of};

use super::map::{MOST_CHOICES, MOST_NUMBERS, Map, MapCounts, is_full, judge_map, rows_of};
use day_rows::number::Choice;
use day_rows::refusal::Refusal;

// The most rows: 'reduced rows 0..1,024'.
const MOST_ROWS: usize = 1024;

// Whether each count is in its range, and the choice is one of the choices.
fn is_in_range(counts: MapCounts, choice: usize) -> bool
    ensures { result ≡ lookup_in_range counts choice }
{
    if MOST_CHOICES < counts.choices {
        return false;
    }
    if MOST_ROWS < counts.rows {
        return false;
    }
    if MOST_NUMBERS < counts.numbers {
        return false;
    }
    choice < counts.choices
}

// The lookup's refusals, lowest number first: 1, 2, 14.
fn judge(counts: MapCounts, choice: usize, map: &Map, whole: &[u16]) -> Result<(), Refusal>
    ensures { tells result ≡ lookup_judged counts choice (map_lent map.now) whole.now }
{
    if !is_in_range(counts, choice) {
        return Err(Refusal::Count);
    }
    if !is_full(map) {
        return Err(Refusal::Length);
    }
    if whole.len() != counts.rows {
        return Err(Refusal::Length);
    }
    if !judge_map(counts, map, whole) {
        return Err(Refusal::Map);
    }
    Ok(())
}

// A choice's rows: 'a part of one of these two lent lists of row numbers'.
pub fn lookup<'a>(
    counts: MapCounts,
    choice: Choice,
    map: &Map<'_, 'a>,
    whole: &'a [u16],
) -> Result<&'a [u16], Refusal>
    ensures { tells (looked result) ≡ lookup_of counts choice.0 (map_lent map.now) whole.now }
{
    let at = choice.0 as usize;
    judge(counts, at, map, whole)?;
    Ok(rows_of(map, whole, at))
}
