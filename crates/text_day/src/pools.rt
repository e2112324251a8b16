// The pools that a file's day is read into.
ghost use Rattle.std.specs.Prelude.{◌≡◌};
ghost use Rattle.day_rows.specs.Told.{tells};
ghost use Rattle.text_day.specs.Reading.{reading_of, read_out, no_day};

use day_file::day::FileDay;
use day_file::read::read_day;
use day_file::word::LONGEST_FILE;
use day_rows::refusal::Refusal;

// A pool for each list of a day, 'lent at its full limit'.
#[derive(Drop)]
pub struct Pools {
    mins: [u16; 64],
    maxs: [u16; 64],
    optional: [u8; 64],
    levels: [u16; 64],
    preferences: [u16; 12800],
    rows: [u64; 128],
}

impl Pools {
    // Pools that hold no day.
    pub fn new() -> Pools
        ensures { result ≡ no_day }
    {
        Pools {
            mins: [0u16; 64],
            maxs: [0u16; 64],
            optional: [0u8; 64],
            levels: [0u16; 64],
            preferences: [0u16; 12800],
            rows: [0u64; 128],
        }
    }
}

// The day of a file, read into the pools: 'a file on standard input (over 26,827 bytes: 11)'.
pub fn read_file<'a>(file: &[u8], pools: &'a mut Pools) -> Result<FileDay<'a>, Refusal>
    ensures { tells (read_out result) ≡ reading_of file.now }
{
    if LONGEST_FILE < file.len() {
        return Err(Refusal::FileLength);
    }
    let counts = read_day(
        file,
        &mut pools.mins,
        &mut pools.maxs,
        &mut pools.optional,
        &mut pools.levels,
        &mut pools.preferences,
        &mut pools.rows,
    )?;
    Ok(FileDay {
        counts,
        mins: &pools.mins[..counts.choices],
        maxs: &pools.maxs[..counts.choices],
        optional: &pools.optional[..counts.choices],
        levels: &pools.levels[..counts.levels],
        preferences: &pools.preferences[..counts.choosers * counts.choices],
        rows: &pools.rows[..counts.rows],
    })
}
