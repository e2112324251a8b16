// The limits of the passes: levels rise.
ghost use Rattle.std.specs.Prelude.{◌≡◌, leb, get_or};
ghost use Rattle.base_lists.specs.First.{first_failing};

// How many levels aren't above the limit.
pub fn levels_up_to(levels: &[u16], limit: u16) -> usize
    ensures { result ≡ first_failing (λ level. leb level limit) levels.now }
{
    for (i, level) in levels.iter().enumerate() {
        if limit < *level {
            return i;
        }
    }
    levels.len()
}

// 'A pass without a plan goes to the next level above': the level at its place, or 0 past the last.
pub fn level_at(levels: &[u16], above: usize) -> u16
    ensures { result ≡ get_or levels.now above 0 }
{
    levels.get(above).copied().unwrap_or(0)
}
