// Weights of the kinds that the day's end has none of: the linear program says nothing of them.
ghost use Rattle.std.specs.Prelude.{◌≡◌, ◌<◌, ◌≤◌, IfSome, length};

use super::simplex::{WEIGHTS, weight_of};

// The kind, where the day's end has choices of it and it is smaller than the size and larger than the best
// kind so far; else the best kind so far.
fn nearer(
    best: Option<usize>,
    kind: usize,
    size: usize,
    sizes: &[usize],
    many: &[u16],
) -> Option<usize>
    requires { let known = length sizes.now in
        (length many.now ≡ known) × ((kind < known) × IfSome best (λ b. b < known)) }
    ensures { IfSome result (λ r. r < length sizes.now) }
{
    if many[kind] == 0 {
        return best;
    }
    if size <= sizes[kind] {
        return best;
    }
    let Some(nearest) = best else {
        return Some(kind);
    };
    if sizes[kind] <= sizes[nearest] {
        return best;
    }
    Some(kind)
}

// The largest kind that is smaller than a size and that the day's end has choices of, if there is one.
fn next_smaller(size: usize, sizes: &[usize], many: &[u16]) -> Option<usize>
    requires { length many.now ≡ length sizes.now }
{
    let mut best = None;
    for kind in 0..sizes.len() {
        best = nearer(best, kind, size, sizes, many);
    }
    best
}

// Gives each kind that the day's end has no choice of the weight of the next
// smaller kind that it has some of.
pub(crate) fn weigh_absent(sizes: &[usize], many: &[u16], program: &mut [f64; 4416])
    requires { (length sizes.now ≤ 64) × (length many.now ≡ length sizes.now) }
{
    for (kind, size) in sizes.iter().enumerate() {
        if many[kind] == 0 {
            let weight = match next_smaller(*size, sizes, many) {
                Some(smaller) => weight_of(smaller, program),
                None => 0.0,
            };
            program[WEIGHTS + kind] = weight;
        }
    }
}
