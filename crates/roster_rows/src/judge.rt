// The refusals of cells: what those of a plan and of a roster must name.
ghost use Rattle.std.specs.Prelude.{◌≡◌};
ghost use Rattle.base_lists.specs.All.{all_of};
ghost use Rattle.day_rows.specs.Told.{tells};
ghost use Rattle.roster_rows.specs.Seats.{names_scheduled, cells_judged};

use day_rows::refusal::Refusal;
use plan_check::plan::{OMITTED, slot_of};
use plan_check::plan_check::cells_fit;

// Whether a roster cell names a scheduled choice.
fn names_scheduled(plan: &[u8], cell: u8) -> bool
    ensures { result ≡ names_scheduled plan.now cell }
{
    slot_of(plan, u16::from(cell)) != OMITTED
}

// Whether every roster cell names a scheduled choice.
fn cells_named(plan: &[u8], roster: &[u8]) -> bool
    ensures { result ≡ all_of (names_scheduled plan.now) roster.now }
{
    roster.iter().all(|cell| names_scheduled(plan, *cell))
}

// The refusals of cells: 9 for a plan's, then 10 for a roster's.
pub fn judge_cells(slots: usize, plan: &[u8], roster: &[u8]) -> Result<(), Refusal>
    ensures { tells result ≡ cells_judged slots plan.now roster.now }
{
    if !cells_fit(slots, plan) {
        return Err(Refusal::PlanCell);
    }
    if !cells_named(plan, roster) {
        return Err(Refusal::RosterCell);
    }
    Ok(())
}
