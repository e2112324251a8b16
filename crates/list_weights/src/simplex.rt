// The linear program: weights of the kinds such that every set of choices that fills a slot weighs at least
// 1, and all choices of the day's end together as little as can be.
// It is solved from its other side, by columns: a column is a set that fills a slot, and as many sets
// are packed as the choices allow.
// The program's numbers stand in rows of 64: the 64 rows of the basis's inverse,
// then those that are named here.
// A function that takes how many kinds are known uses so many numbers of several rows: they aren't one part of
// the program, so the count stands beside it.
ghost use Rattle.std.specs.Prelude.{◌≡◌, ◌<◌, ◌≤◌, IfSome, length};

// How much of each column of the basis is packed.
const VALUES: usize = 4096;

// 1 for a column that is a set, 0 for one that leaves choices over.
const COSTS: usize = 4160;

// Each kind's weight.
pub(crate) const WEIGHTS: usize = 4224;

// How many choices of each kind the set has that comes into the basis.
pub(crate) const COLUMN: usize = 4288;

// The set that comes into the basis, by the columns of the basis.
const TURNED: usize = 4352;

// Writes the program's start: no set is packed, every choice is left over.
pub(crate) fn start(many: &[u16], program: &mut [f64; 4416])
    requires { length many.now ≤ 64 }
{
    for (kind, count) in many.iter().enumerate() {
        program[kind * 65] = 1.0;
        program[VALUES + kind] = f64::from(*count);
    }
}

// What a kind weighs by the sets that are packed, from 0 to 1: rounding may take it past either.
fn kind_weight(kind: usize, known: usize, program: &[f64; 4416]) -> f64
    requires { (kind < 64) × (known ≤ 64) }
{
    let mut weight = 0.0;
    for row in 0..known {
        weight += program[COSTS + row] * program[row * 64 + kind];
    }
    weight.clamp(0.0, 1.0)
}

// Writes the weights of all kinds by the sets that are packed.
pub(crate) fn weigh_kinds(known: usize, program: &mut [f64; 4416])
    requires { known ≤ 64 }
{
    for kind in 0..known {
        program[WEIGHTS + kind] = kind_weight(kind, known, program);
    }
}

// A kind's weight, 0 past the last kind.
pub(crate) fn weight_of(kind: usize, program: &[f64; 4416]) -> f64 {
    if 64 <= kind {
        return 0.0;
    }
    program[WEIGHTS + kind]
}

// One number of the set that comes into the basis, by the columns of the basis.
fn turned_at(row: &[f64], column: &[f64]) -> f64 {
    let mut sum = 0.0;
    for (share, count) in row.iter().zip(column) {
        sum += *share * *count;
    }
    sum
}

// Writes the set that comes into the basis by the columns of the basis.
fn turn_column(known: usize, program: &mut [f64; 4416])
    requires { known ≤ 64 }
{
    for row in 0..known {
        let numbers: &[f64] = program;
        let column = &numbers[COLUMN..COLUMN + known];
        program[TURNED + row] = turned_at(&numbers[row * 64..row * 64 + known], column);
    }
}

// How much of the set can be packed before a column of the basis is used up:
// without bound where the column grows.
fn ratio_of(value: f64, turned: f64) -> f64 {
    if turned > 1.0e-7 {
        return value / turned;
    }
    1.0e18
}

// The column that is used up first and leaves the basis, if there is one.
fn leaving_row(values: &[f64], turned: &[f64]) -> Option<usize>
    requires { length turned.now ≡ length values.now }
    ensures { IfSome result (λ row. row < length values.now) }
{
    let mut leaving = None;
    let mut least = 1.0e18;
    for (row, value) in values.iter().enumerate() {
        let ratio = ratio_of(*value, turned[row]);
        if ratio < least {
            least = ratio;
            leaving = Some(row);
        }
    }
    leaving
}

// Makes the leaving column's row that of the set that comes into the basis.
fn divide_row(row: usize, known: usize, program: &mut [f64; 4416])
    requires { (row < 64) × (known ≤ 64) }
{
    let divisor = program[TURNED + row];
    for number in program[row * 64..row * 64 + known].iter_mut() {
        *number /= divisor;
    }
    program[VALUES + row] /= divisor;
    program[COSTS + row] = 1.0;
}

// Takes the set's part out of another column's row.
fn reduce_row(other: usize, row: usize, known: usize, program: &mut [f64; 4416])
    requires { (other < 64) × ((row < 64) × (known ≤ 64)) }
{
    let times = program[TURNED + other];
    if times == 0.0 {
        return;
    }
    for kind in 0..known {
        program[other * 64 + kind] -= times * program[row * 64 + kind];
    }
    program[VALUES + other] -= times * program[VALUES + row];
}

// Puts the set in the leaving column's place in the basis.
fn pivot(row: usize, known: usize, program: &mut [f64; 4416])
    requires { (row < 64) × (known ≤ 64) }
{
    divide_row(row, known, program);
    for other in 0..known {
        if other != row {
            reduce_row(other, row, known, program);
        }
    }
}

// Brings the set into the basis in place of the column that is used up first: false where none is.
pub(crate) fn bring_column(known: usize, program: &mut [f64; 4416]) -> bool
    requires { known ≤ 64 }
{
    turn_column(known, program);
    let numbers: &[f64] = program;
    let values = &numbers[VALUES..VALUES + known];
    let Some(row) = leaving_row(values, &numbers[TURNED..TURNED + known]) else {
        return false;
    };
    pivot(row, known, program);
    true
}
