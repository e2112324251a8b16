// An answer of the library as other languages get it: 0 or 01's number, and eight figures.
ghost use Rattle.std.specs.Prelude.{◌≡◌, List, ℕ};
ghost use Rattle.day_rows.specs.Told.{tells};
ghost use Rattle.thalluscrest_figures.specs.Crossing.{answer, told_figures};

use super::refusal::put_refusal;
use day_rows::refusal::Refusal;

// A value that a call hands back, in eight figures, laid out as `specs/Layouts` says.
pub trait Crosses {
    ghost layout: { Self → List ℕ };

    fn figures(self) -> [u64; 8]
        ensures { result ≡ layout self };
}

// Puts the figures of an answer, whatever the call, and hands back 0; or those of its refusal, and its number.
pub fn put<T: Crosses>(given: Result<T, Refusal>, figures: &mut [u64; 8]) -> u8
    ensures { answer result figures.new ≡ told_figures T.layout (tells given) }
{
    match given {
        Ok(value) => {
            *figures = value.figures();
            0
        }
        Err(why) => put_refusal(why, figures),
    }
}
