// A refusal as every program says it.
ghost use Rattle.std.specs.Prelude.{◌≡◌};
ghost use Rattle.day_rows.specs.Refusal.{number_of};
ghost use Rattle.text_lines.specs.Text.{refused_text};
ghost use Rattle.text_lines.specs.Put.{pool, put_at};

use day_rows::refusal::Refusal;
use text_lines::put::put_refused;

// Puts the whole text of a refusal.
pub fn put_refusal(text: &mut [u8], why: Refusal) -> usize
    ensures { pool text.new result ≡ put_at text.old 0 (refused_text (number_of why)) }
{
    put_refused(text, u64::from(u8::from(why)))
}
