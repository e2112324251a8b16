// The lines of the program `plan`.
ghost use Rattle.std.specs.Prelude.{◌≡◌, ◌++◌, ◌≤◌, length};
ghost use Rattle.text_lines.specs.Put.{pool};
ghost use Rattle.text_lines.specs.steps.Put.{SamePool, FitsIn, PutIn};
ghost use Rattle.text_lines.specs.PlanLines.{figures_text, place_text, choice_line, choice_lines, none, turns};
ghost use Rattle.text_lines.specs.Putting.{put_whole, put_found};

use super::put::Pool;

// The length of a pool that holds any text of `plan`: line one of 13 bytes, three lines of 82 in all, and 64
// choices at 19 bytes.
pub const LONGEST_TEXT: usize = 1311;

// The most choices of a plan.
const MOST_CHOICES: usize = 64;

// 'after found, none and turns also `turns`, `passes`, `limit`': the turns used, the passes begun and the last
// limit.
#[derive(Clone, Copy)]
pub struct Figures {
    pub turns: u64,
    pub passes: usize,
    pub limit: u16,
}

// Puts a choice's place at the end of its line: its slot, or `out`.
fn put_place(text: &mut Pool, place: u8)
    requires { FitsIn text.old (place_text place) }
    ensures same { SamePool text.old text.new }
    ensures put { PutIn text.old (place_text place) text.new }
{
    if place == 255 {
        text.put_bytes(b" out\n");
        return;
    }
    text.put_number_line(b" slot ", place as u64);
}

// Puts a choice's line.
fn put_choice(text: &mut Pool, choice: usize, place: u8)
    requires { FitsIn text.old (choice_line choice place) }
    ensures same { SamePool text.old text.new }
    ensures put { PutIn text.old (choice_line choice place) text.new }
{
    text.put_bytes(b"choice ");
    text.put_number(choice as u64);
    put_place(text, place);
}

// Puts a line for each choice of a plan.
fn put_choices(text: &mut Pool, plan: &[u8])
    requires { FitsIn text.old (choice_lines 0 plan.now) }
    ensures same { SamePool text.old text.new }
    ensures put { PutIn text.old (choice_lines 0 plan.now) text.new }
{
    for (i, place) in plan.iter().enumerate() {
        put_choice(text, i, *place);
    }
}

// Puts line one, and the three figures behind it.
fn put_figures(text: &mut Pool, line: &[u8], figures: Figures)
    requires { let lines = line.now ++ figures_text figures.turns figures.passes figures.limit in
        FitsIn text.old lines }
    ensures same { SamePool text.old text.new }
    ensures put { let lines = line.now ++ figures_text figures.turns figures.passes figures.limit in
        PutIn text.old lines text.new }
{
    text.put_bytes(line);
    text.put_number_line(b"turns ", figures.turns);
    text.put_number_line(b"passes ", figures.passes as u64);
    text.put_number_line(b"limit ", figures.limit as u64);
}

// Puts the text of `found`: the figures, and a line a choice.
pub fn put_found(text: &mut [u8], figures: Figures, plan: &[u8]) -> usize
    ensures { let said = put_found text.old figures.turns figures.passes figures.limit plan.now in
        pool text.new result ≡ said }
{
    if MOST_CHOICES < plan.len() {
        return 0;
    }
    if text.len() < LONGEST_TEXT {
        return 0;
    }
    let mut text = Pool::new(text);
    put_figures(&mut text, b"result found\n", figures);
    put_choices(&mut text, plan);
    text.next
}

// Puts the text of `none`: the figures.
pub fn put_none(text: &mut [u8], figures: Figures) -> usize
    ensures { let said = none figures.turns figures.passes figures.limit in
        pool text.new result ≡ put_whole text.old said }
{
    if text.len() < LONGEST_TEXT {
        return 0;
    }
    let mut text = Pool::new(text);
    put_figures(&mut text, b"result none\n", figures);
    text.next
}

// Puts the text of `turns`: the figures.
pub fn put_turns(text: &mut [u8], figures: Figures) -> usize
    ensures { let said = turns figures.turns figures.passes figures.limit in
        pool text.new result ≡ put_whole text.old said }
{
    if text.len() < LONGEST_TEXT {
        return 0;
    }
    let mut text = Pool::new(text);
    put_figures(&mut text, b"result turns\n", figures);
    text.next
}
