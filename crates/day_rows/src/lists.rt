// What 'Numbers a day may have' asks of a day's lists, for every call that is lent them.
ghost use Rattle.std.specs.Prelude.{◌≡◌};
ghost use Rattle.base_lists.specs.All.{all_at_most};
ghost use Rattle.day_rows.specs.Levels.{levels_rise, last_level};

// Number 3: whether a list of levels rises strictly.
pub fn levels_rise(levels: &[u16]) -> bool
    ensures { result ≡ levels_rise levels.now }
{
    for i in 1..levels.len() {
        if levels[i] <= levels[i - 1] {
            return false;
        }
    }
    true
}

// The last level, 0 of no levels.
pub fn last_level(levels: &[u16]) -> u16
    ensures { result ≡ last_level levels.now }
{
    levels.last().copied().unwrap_or(0)
}

// Number 4: whether every preference is at most the last level.
pub fn preferences_keep(last: u16, preferences: &[u16]) -> bool
    ensures { result ≡ all_at_most last preferences.now }
{
    for preference in preferences {
        if last < *preference {
            return false;
        }
    }
    true
}

// Number 13: whether every optional byte is 0 or 1.
pub fn flags_fit(optional: &[u8]) -> bool
    ensures { result ≡ all_at_most 1 optional.now }
{
    optional.iter().all(|flag| *flag <= 1)
}
