// Whether a search's answer is the one that a record tells: a byte for the outcome, then turns, passes and
// limit; for a refusal the row that it carries in place of the turns.
use day_rows::refusal::Refusal;
use search_meaning::answer::{Figures, Searched};
use test_cases::days::{told_number, told_of};
use test_cases::{BLANK, byte, is_filled, number, plus, same, word};

// The number of the refusal that an outcome's byte stands for: the told records have 100 more; the oracle's
// file has 6 and 7 as they are.
fn refusal_number(outcome: u8) -> u8 {
    match outcome {
        6 | 7 => outcome,
        _ => told_number(outcome),
    }
}

// Whether these figures stand at a place.
fn are_figures(bytes: &[u8], at: usize, figures: Figures) -> bool {
    number(bytes, at) == figures.turns
        && usize::from(word(bytes, plus(at, 8))) == figures.passes
        && word(bytes, plus(at, 10)) == figures.limit
}

// Whether an outcome and its figures stand at a place.
fn is_told(bytes: &[u8], at: usize, outcome: u8, figures: Figures) -> bool {
    byte(bytes, at) == outcome && are_figures(bytes, plus(at, 1), figures)
}

// Whether a refusal stands at a place.
pub fn is_refusal(bytes: &[u8], at: usize, why: Refusal) -> bool {
    let told = told_of(why);
    let figures = Figures {
        turns: told.row,
        passes: 0,
        limit: 0,
    };
    refusal_number(byte(bytes, at)) == told.number && are_figures(bytes, plus(at, 1), figures)
}

// Whether the plan's first places are those of the record, and the rest is as it was before the call.
fn is_plan(bytes: &[u8], at: usize, choices: usize, plan: &[u8]) -> bool {
    same(plan, 0, bytes, at, choices) && is_filled(plan, choices, BLANK)
}

// Whether an answer and the plan after it are the ones that stand at a place: after found the plan is
// written, else it is as it was.
pub fn is_answer(
    bytes: &[u8],
    at: usize,
    answer: Result<Searched, Refusal>,
    choices: usize,
    plan: &[u8],
) -> bool {
    match answer {
        Ok(Searched::None(figures)) => {
            is_told(bytes, at, 0, figures) && is_filled(plan, 0, BLANK)
        }
        Ok(Searched::Found(figures)) => {
            is_told(bytes, at, 1, figures) && is_plan(bytes, plus(at, 13), choices, plan)
        }
        Ok(Searched::OutOfTurns(figures)) => {
            is_told(bytes, at, 2, figures) && is_filled(plan, 0, BLANK)
        }
        Err(why) => is_refusal(bytes, at, why) && is_filled(plan, 0, BLANK),
    }
}
