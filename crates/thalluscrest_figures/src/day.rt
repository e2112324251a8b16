// The figures of a day read, written and reduced.
ghost use Rattle.std.specs.Prelude.{◌≡◌, [], ◌∷◌, ◌≤◌, length};
ghost use Rattle.day_rows.specs.Told.{tells};
ghost use Rattle.thalluscrest_figures.specs.Crossing.{answer, told_figures};
ghost use Rattle.thalluscrest_figures.specs.Layouts.{day_figures, one_figure, reduction_figures};
ghost use Rattle.thalluscrest_figures.specs.steps.Kinds.{of_kinds};

use super::codes::as_figure;
use super::crossing::Crosses;
use super::refusal::put_refusal;
use day_file::counts::FileCounts;
use day_rows::refusal::Refusal;
use day_rows::row::Row;
use reduce::Reduction;

// A day read: its counts.
impl Crosses for FileCounts {
    ghost layout = { day_figures };

    fn figures(self) -> [u64; 8] {
        [
            self.choices as u64,
            self.slots as u64,
            self.choosers as u64,
            self.levels as u64,
            self.rows as u64,
            0,
            0,
            0,
        ]
    }
}

// A day written: its file's bytes; an own map: its numbers; a level's list: its sets.
impl Crosses for usize {
    ghost layout = { one_figure };

    fn figures(self) -> [u64; 8] {
        [self as u64, 0, 0, 0, 0, 0, 0, 0]
    }
}

// 1 for a row of the kinds from low to high, else 0.
fn one_of_kinds(low: u16, high: u16, number: u64) -> usize
    ensures { (result ≡ length (of_kinds low high (number ∷ []))) × (result ≤ 1) }
{
    let kind = Row::kind_of(number);
    if kind < low {
        return 0;
    }
    if high < kind {
        return 0;
    }
    1
}

// How many rows are of the kinds from low to high.
fn count_kinds(low: u16, high: u16, rows: &[u64]) -> usize
    ensures { result ≡ length (of_kinds low high rows.now) }
{
    let mut count = 0;
    for row in rows {
        count += one_of_kinds(low, high, *row);
    }
    count
}

// Puts the figures of a reduction: its rows, whether slots clash, and how many of the rows in the pool are
// the search's and the roster's. The pool counts too, so that its layout isn't the answer's alone.
pub fn put_reduced(reduced: Result<Reduction, Refusal>, pool: &[u64], figures: &mut [u64; 8]) -> u8
    ensures { let layout = reduction_figures pool.now in
        answer result figures.new ≡ told_figures layout (tells reduced) }
{
    match reduced {
        Ok(reduction) => {
            let searched = count_kinds(1, 6, pool);
            let seated = count_kinds(10, 13, pool);
            *figures = [
                reduction.count as u64,
                as_figure(reduction.clash),
                searched as u64,
                seated as u64,
                0,
                0,
                0,
                0,
            ];
            0
        }
        Err(why) => put_refusal(why, figures),
    }
}
