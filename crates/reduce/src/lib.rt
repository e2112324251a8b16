// The reduction of a day's given rows (module 2): rows turned, rows that follow added, all sorted with equal
// ones once.
#![tactic(auto)]

ghost use Rattle.std.specs.Prelude.{◌≡◌, length};
ghost use Rattle.day_rows.specs.Told.{outcome, tells};
ghost use Rattle.reduce.specs.Reduction.{reduction_of, reduce_of};
ghost use Rattle.reduce.specs.steps.Expand.{PoolLent};

use day_rows::check;
use day_rows::check::{Counts, Takes};
use day_rows::refusal::Refusal;
use reduce_turn::turn;

mod expand;

// The most rows that a reduction may have before equal ones are dropped, and the length of the pool lent for
// them.
pub const MOST_ROWS: usize = 1024;

// What a reduction hands back beside the pool: how many rows it holds, and whether two slots that must agree
// differ.
#[derive(Clone, Copy)]
pub struct Reduction {
    pub count: usize,
    pub clash: bool,
}

// Writes the reduced rows of a day into the pool, or refuses: 1, then 2, then 5 with the first bad row, then
// 6.
pub fn reduce(counts: Counts, rows: &[u64], pool: &mut [u64]) -> Result<Reduction, Refusal>
    ensures { let before = pool.old in
        outcome (tells result) pool.new ≡ reduce_of counts rows.now before }
{
    if !check::counts_in_range(counts, Takes::Given) {
        return Err(Refusal::Count);
    }
    if rows.len() != counts.rows {
        return Err(Refusal::Length);
    }
    if pool.len() != MOST_ROWS {
        return Err(Refusal::Length);
    }
    check::check_each_row(counts, Takes::Given, rows)?;
    reduce_rows(counts, rows, pool)
}

// The reduction of rows that keep the table: all rows written, then sorted with equal ones once.
fn reduce_rows(counts: Counts, rows: &[u64], pool: &mut [u64]) -> Result<Reduction, Refusal>
    requires { PoolLent counts (length rows.now) (length pool.old) }
    ensures { outcome (tells result) pool.new ≡ reduction_of counts rows.now }
{
    let total = expand::expand(counts, rows, pool);
    let too_many = total > MOST_ROWS;
    if too_many {
        pool.fill(0);
        return Err(Refusal::TooMany);
    }
    let count = reduce_sort::sort_unique(&mut pool[..total]);
    pool[total..].fill(0);
    let clash = turn::clashes(rows);
    Ok(Reduction { count, clash })
}
