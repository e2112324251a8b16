// The critical sets that a pass at a limit tests.
ghost use Rattle.std.specs.Prelude.{◌≡◌, ◌≤◌, length, take};
ghost use Rattle.search.specs.steps.LevelPass.{basis_lent, sets_listed};

use super::basis::Basis;
use sets_levels::level_list::level_list;

// How many sets the list of a limit has, written from its front; none where the list is refused.
pub(crate) fn sets_at(basis: &Basis, limit: u16, list: &mut [u64]) -> usize
    requires { 1024 ≡ length list.old }
    ensures { let basis = basis_lent basis.now in
        let sets = sets_listed basis.levels basis.count basis.pools limit in
        (result ≤ length list.new) × (take result list.new ≡ sets) }
{
    let listed = level_list(
        basis.levels,
        limit,
        basis.masks,
        basis.set_levels,
        basis.count,
        list,
    );
    let Ok(sets) = listed else {
        return 0;
    };
    sets
}
