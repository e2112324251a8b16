// The figures of a plan and a roster checked, and of plans listed.
ghost use Rattle.std.specs.Prelude.{◌≡◌};
ghost use Rattle.list_all.specs.Outcome.{list_tells};
ghost use Rattle.list_starts.specs.PageAnswer.{page_tells};
ghost use Rattle.thalluscrest_figures.specs.Layouts.{check_figures, roster_figures, page_figures, paged_figures};

use super::codes::as_figure;
use super::crossing::Crosses;
use list_all::list_plans::Listed;
use list_starts::page_end::Paged;
use roster_check::roster_check::Scored;

// A plan checked: whether it is feasible.
impl Crosses for bool {
    ghost layout = { check_figures };

    fn figures(self) -> [u64; 8] {
        [as_figure(self), 0, 0, 0, 0, 0, 0, 0]
    }
}

// A roster checked: whether it passes, and the highest preference met.
impl Crosses for Scored {
    ghost layout = { roster_figures };

    fn figures(self) -> [u64; 8] {
        [
            as_figure(self.passed),
            self.highest as u64,
            0,
            0,
            0,
            0,
            0,
            0,
        ]
    }
}

// Plans listed: a page with its counts, or out of turns.
impl Crosses for Listed {
    ghost layout = { λ listed. page_figures (list_tells listed) };

    fn figures(self) -> [u64; 8] {
        match self {
            Listed::Plans {
                written,
                total,
                nodes,
            } => [1, written, total, nodes, 0, 0, 0, 0],
            Listed::Turns => [2, 0, 0, 0, 0, 0, 0, 0],
        }
    }
}

// A page of plans: whether the list ends with it, goes on or turns ran out, the plans written and those met.
impl Crosses for Paged {
    ghost layout = { λ paged. paged_figures (page_tells paged) };

    fn figures(self) -> [u64; 8] {
        match self {
            Paged::Ended { written, total } => [0, written, total, 0, 0, 0, 0, 0],
            Paged::GoesOn { written, met } => [1, written, met, 0, 0, 0, 0, 0],
            Paged::Turns { written, met } => [2, written, met, 0, 0, 0, 0, 0],
        }
    }
}
