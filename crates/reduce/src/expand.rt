// The stages of a reduction, which write all its rows before equal ones are dropped.
ghost use Rattle.std.specs.Prelude.{◌≡◌, length, take, replicate};
ghost use Rattle.reduce_turn.specs.Turn.{turned_rows};
ghost use Rattle.reduce_turn.specs.steps.Free.{Wrote};
ghost use Rattle.reduce_added.specs.Groups.{same_choosers};
ghost use Rattle.reduce_added.specs.steps.Fit.{groups_lent};
ghost use Rattle.reduce.specs.Reduction.{added_to, expanded};
ghost use Rattle.reduce.specs.steps.Expand.{Small, PoolLent, PoolFilled};

use day_rows::check::Counts;
use reduce_added::groups::Grouped;
use reduce_added::{copies, groups, pairs};
use reduce_turn::turn::Turned;
use reduce_turn::{free, turn};

// Writes the turned rows, then each stage's rows into the free end after those already written. The answer is
// how many they are, or, past the pool's room, a number larger than it.
fn add_rows(choosers: usize, rows: &[u64], groups: &Grouped, pool: &mut [u64]) -> usize
    requires { let groups = groups.now in
        Small choosers rows.now groups.members.now groups.ends.now (length pool.old) }
    ensures { let added = added_to (groups_lent groups.now) choosers rows.now in
        PoolFilled pool.old added result pool.new }
{
    let mut total = free::copy(rows, pool);
    total += pairs::group_pairs(groups, &mut pool[total..]);
    if total > pool.len() {
        return total;
    }
    total += pairs::mandatory_pairs(choosers, rows, &mut pool[total..]);
    if total > pool.len() {
        return total;
    }
    total + copies::copies(rows, groups, &mut pool[total..])
}

// Writes the turned rows, and all that follows from them and their groups; the answer is how many they are.
fn add_following(counts: Counts, rows: &[u64], pool: &mut [u64]) -> usize
    requires { PoolLent counts (length rows.now) (length pool.old) }
    ensures { let turned = rows.now in
        let groups = same_choosers counts.choices turned in
        PoolFilled pool.old (added_to groups counts.choosers turned) result pool.new }
{
    let found = groups::groups(counts.choices, rows);
    let members = found.members;
    let ends = found.ends;
    let count = found.count;
    let groups = Grouped {
        members: &members,
        ends: &ends[..count],
    };
    add_rows(counts.choosers, rows, &groups, pool)
}

// The rows that pairs and copies are written for: the given rows turned, equal ones too, since equal rows
// become one only when all rows are written.
fn rows_to_pair(rows: &[u64]) -> Turned
    ensures { let turned = turned_rows (take 128 rows.now) in
        Wrote (replicate 128 0) 0 turned result.count result.numbers }
{
    turn::turn(rows)
}

// Writes the given rows turned, and all that follows from them; the answer is how many they are.
pub(crate) fn expand(counts: Counts, rows: &[u64], pool: &mut [u64]) -> usize
    requires { PoolLent counts (length rows.now) (length pool.old) }
    ensures { PoolFilled pool.old (expanded counts rows.now) result pool.new }
{
    let turned = rows_to_pair(rows);
    let numbers = turned.numbers;
    let count = turned.count;
    add_following(counts, &numbers[..count], pool)
}
