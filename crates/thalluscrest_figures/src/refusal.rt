// The figures of a refusal, whatever the call: 01's number, and the row that 5 carries.
ghost use Rattle.std.specs.Prelude.{◌≡◌};
ghost use Rattle.day_rows.specs.Refusal.{number_of, carried_by};
ghost use Rattle.thalluscrest_figures.specs.Crossing.{answer, refusal_figures};
ghost use Rattle.thalluscrest_figures.specs.steps.Carried.{row_carried};

use day_rows::refusal::Refusal;

// The row that 5 carries, 0 for every other number.
fn row_of(why: Refusal) -> u64
    ensures { result ≡ row_carried (carried_by why) }
{
    match why {
        Refusal::Row(row) => row as u64,
        _ => 0,
    }
}

// Puts the figures of a refusal, and hands back its number.
pub fn put_refusal(why: Refusal, figures: &mut [u64; 8]) -> u8
    ensures { answer result figures.new ≡ answer (number_of why) (refusal_figures (carried_by why)) }
{
    *figures = [row_of(why), 0, 0, 0, 0, 0, 0, 0];
    u8::from(why)
}
