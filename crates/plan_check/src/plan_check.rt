// The plan check as a public call.
ghost use Rattle.std.specs.Prelude.{◌≡◌, true};
ghost use Rattle.base_lists.specs.All.{all_of};
ghost use Rattle.day_rows.specs.Told.{tells};
ghost use Rattle.plan_check.specs.Day.{day_lent};
ghost use Rattle.plan_check.specs.Check.{cell_fits, cells_judged, before_cells, plan_check_of};

use super::day::Day;
use super::feasible::{is_feasible, lengths_fit};
use super::plan::OMITTED;
use day_rows::check::{Takes, check_each_row, counts_in_range};
use day_rows::lists::flags_fit;
use day_rows::refusal::Refusal;

// Whether a plan cell is a slot or 255.
fn cell_fits(slots: usize, cell: u8) -> bool
    ensures { result ≡ cell_fits slots cell }
{
    if cell == OMITTED {
        return true;
    }
    (cell as usize) < slots
}

// Whether every plan cell is a slot or 255; the roster check asks it too.
pub fn cells_fit(slots: usize, plan: &[u8]) -> bool
    ensures { result ≡ all_of (cell_fits slots) plan.now }
{
    plan.iter().all(|cell| cell_fits(slots, *cell))
}

// Whether every plan cell is a slot or 255; those of a feasible plan are, so they aren't looked at again.
fn cells_known(feasible: bool, slots: usize, plan: &[u8]) -> bool
    requires { feasible ≡ true → all_of (cell_fits slots) plan.now ≡ true }
    ensures { result ≡ all_of (cell_fits slots) plan.now }
{
    if feasible {
        return true;
    }
    cells_fit(slots, plan)
}

// The refusals of cells: 9 for a plan's, then 13 for an optional byte.
fn check_cells(feasible: bool, slots: usize, optional: &[u8], plan: &[u8]) -> Result<(), Refusal>
    requires { feasible ≡ true → all_of (cell_fits slots) plan.now ≡ true }
    ensures { tells result ≡ cells_judged slots optional.now plan.now }
{
    let cells = cells_known(feasible, slots, plan);
    let flags = flags_fit(optional);
    if !cells {
        return Err(Refusal::PlanCell);
    }
    if !flags {
        return Err(Refusal::Optional);
    }
    Ok(())
}

// The refusals that come before those of cells, lowest number first: 1, 2, 5 with the first bad row.
fn judge(day: &Day, plan: &[u8]) -> Result<(), Refusal>
    ensures { tells result ≡ before_cells (day_lent day.now) plan.now }
{
    if !counts_in_range(day.counts, Takes::Scheduling) {
        return Err(Refusal::Count);
    }
    if !lengths_fit(day, plan) {
        return Err(Refusal::Length);
    }
    if day.rows.len() != day.counts.rows {
        return Err(Refusal::Length);
    }
    check_each_row(day.counts, Takes::Scheduling, day.rows)
}

// The plan check: refused, or whether the plan is feasible. The cells come last, since a feasible plan's
// needn't be tested.
pub fn check_plan(day: &Day, plan: &[u8]) -> Result<bool, Refusal>
    ensures { tells result ≡ plan_check_of (day_lent day.now) plan.now }
{
    judge(day, plan)?;
    let feasible = is_feasible(day, plan);
    check_cells(feasible, day.counts.slots, day.optional, plan)?;
    Ok(feasible)
}
