// A pass at its limit.
ghost use Rattle.std.specs.Prelude.{◌≡◌};
ghost use Rattle.search_pass.specs.steps.Call.{leaves, passed_tells, pass_leaves};
ghost use Rattle.search.specs.steps.LevelPass.{basis_lent, lent_by};

use super::basis::Basis;
use super::order::order_at;
use super::sets::sets_at;
use search_pass::pass::{Passed, run_pass};
use search_rules::pass::Lent;

// One pass at its limit, with the limit's sets and the order of the pass, for callers that have judged their
// day: what `run_pass` and `level_list` test is tested here.
pub fn pass_at(
    basis: &Basis,
    limit: u16,
    pass: usize,
    turns: u64,
    draw: usize,
    plan: &mut [u8],
) -> Passed
    ensures { let lent = lent_by (basis_lent basis.now) limit pass in
        leaves (passed_tells result) plan.new ≡ pass_leaves lent turns draw plan.old }
{
    let mut list = [0u64; 1024];
    let sets = sets_at(basis, limit, &mut list);
    // An order has 64 places.
    let choices = basis.day.counts.choices.min(64);
    let order = order_at(basis, choices, pass);
    let lent = Lent {
        full: basis.full,
        day: basis.day,
        map: basis.map,
        whole: basis.whole,
        order: &order[..choices],
        sets: &list[..sets],
        draws: basis.draws,
    };
    run_pass(&lent, turns, draw, plan)
}
