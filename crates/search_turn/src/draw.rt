// The draws, one after the other and round again.
ghost use Rattle.std.specs.Prelude.{◌≡◌, cond};
ghost use Rattle.search_rules.specs.Pass.{next_draw};

// The place of the draw after one.
fn next_draw(draws: &[u32], at: usize) -> usize
    ensures { result ≡ next_draw draws.now at }
{
    if draws.len() <= at {
        return 0;
    }
    if at + 1 < draws.len() {
        return at + 1;
    }
    0
}

// The place of the next draw once candidates are made.
pub(crate) fn draw_after(draws: &[u32], at: usize, drew: bool) -> usize
    ensures { result ≡ cond drew (next_draw draws.now at) at }
{
    if drew {
        return next_draw(draws, at);
    }
    at
}
