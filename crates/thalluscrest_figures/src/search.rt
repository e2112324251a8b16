// The figures of critical sets and of a search.
ghost use Rattle.std.specs.Prelude.{◌≡◌};
ghost use Rattle.search_meaning.specs.Calls.{settled};
ghost use Rattle.thalluscrest_figures.specs.Layouts.{sets_figures, search_figures};

use super::crossing::Crosses;
use search_meaning::answer::Searched;
use sets_analysis::analysis;

// Critical sets: how many, and the bound.
impl Crosses for analysis::Figures {
    ghost layout = { sets_figures };

    fn figures(self) -> [u64; 8] {
        [self.count as u64, self.bound as u64, 0, 0, 0, 0, 0, 0]
    }
}

// A search: none, found or out of turns, with turns, passes and limit.
impl Crosses for Searched {
    ghost layout = { λ searched. search_figures (settled searched) };

    fn figures(self) -> [u64; 8] {
        let (ending, told) = match self {
            Searched::None(told) => (0, told),
            Searched::Found(told) => (1, told),
            Searched::OutOfTurns(told) => (2, told),
        };
        [
            ending,
            told.turns,
            told.passes as u64,
            told.limit as u64,
            0,
            0,
            0,
            0,
        ]
    }
}
