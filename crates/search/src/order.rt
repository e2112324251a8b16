// The order in which a pass takes the choices.
ghost use Rattle.std.specs.Prelude.{◌≡◌, ◌≤◌, min, length, get_or, take};
ghost use Rattle.search_map.specs.Map.{map_lent, looked_up};
ghost use Rattle.search_order.specs.Order.{pass_order};
ghost use Rattle.search.specs.steps.LevelPass.{basis_lent, rows_found};

use super::basis::Basis;
use search_map::map::{Map, rows_of};
use search_order::order_pass;

// How many rows are looked up for a choice, as two bytes hold it: 65,535 for more.
fn count_of<'a>(map: &Map<'_, 'a>, whole: &'a [u16], choice: usize) -> u16
    ensures { result ≡ min (length (looked_up (map_lent map.now) whole.now choice)) 65535 }
{
    rows_of(map, whole, choice).len().min(65535) as u16
}

// Each choice's 'number of looked-up rows'.
fn count_rows<'a>(map: &Map<'_, 'a>, whole: &'a [u16]) -> [u16; 64]
    ensures { result ≡ rows_found (map_lent map.now) whole.now }
{
    let mut counted = [0u16; 64];
    for choice in 0..64 {
        counted[choice] = count_of(map, whole, choice);
    }
    counted
}

// The order of a pass, in the first C of 64 places.
pub(crate) fn order_at(basis: &Basis, choices: usize, pass: usize) -> [u8; 64]
    requires { choices ≤ 64 }
    ensures { let basis = basis_lent basis.now in
        let counted = rows_found basis.map basis.whole in
        let ordered = pass_order choices basis.orders (λ choice. get_or counted choice 0) pass in
        (length result ≡ 64) × (take choices result ≡ ordered) }
{
    let counted = count_rows(&basis.map, basis.whole);
    let mut order = [0u8; 64];
    order_pass(basis.orders, pass, &counted, &mut order[..choices]);
    order
}
