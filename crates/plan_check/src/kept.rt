// Whether a plan keeps a list of rows, for calls that ask for the rows alone: the roster check does.
ghost use Rattle.std.specs.Prelude.{◌≡◌, ◌≤◌, length, replicate};
ghost use Rattle.plan_check.specs.steps.Kept.{keeps_every};
ghost use Rattle.plan_check.specs.steps.Sizing.{Counted};

use super::feasible::add_at;
use super::plan::OMITTED;
use super::rows::keeps_rows;

// The pass over the plan that counts each slot's choices, up to a cell that is neither a slot nor 255.
fn count_sizes(plan: &[u8], sizes: &mut [u32; 24]) -> bool
    requires { (length plan.now ≤ 64) × (sizes.old ≡ replicate 24 0) }
    ensures { Counted plan.now result sizes.new }
{
    for place in plan {
        let slot = usize::from(*place);
        if 24 <= slot {
            if *place != OMITTED {
                return false;
            }
            continue;
        }
        add_at(sizes, slot, 1);
    }
    true
}

// Whether a plan keeps every row, whatever its omissions and sums.
pub fn keeps_every_row(plan: &[u8], rows: &[u64]) -> bool
    ensures { result ≡ keeps_every plan.now rows.now }
{
    if 64 < plan.len() {
        return false;
    }
    let mut sizes = [0u32; 24];
    if !count_sizes(plan, &mut sizes) {
        return false;
    }
    keeps_rows(rows, plan, &sizes)
}
