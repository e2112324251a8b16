// The loop over a file's records, as every replay has it: the record in the buffer is judged, counted, and
// the next one is read over it, until the file ends.
ghost use Rattle.std.specs.Prelude.{◌≡◌, ◌-◌, ◌≤◌};
ghost use Rattle.test_cases.specs.steps.Tallies.{counted, uncounted, ReadOn};

use super::{Next, Tally, ended, open_read, read_next};
use std::fs::{File, Files};

// The most records of a file that are read, so that every replay ends.
const MOST_RECORDS: u64 = 0x1_0000_0000;

// A replay between two records: its file (none where it couldn't be opened, or has ended), how many records
// may still come (0 once the file has ended), and the tally of those that were judged.
#[derive(Drop)]
pub struct Replay {
    file: Option<File>,
    pub left: u64,
    pub tally: Tally,
}

impl Replay {
    // Opens a file of the folder that the program runs in, and reads its first record to the buffer.
    pub fn of(rt: &impl Files<File = File>, name: &[u8], record: &mut [u8]) -> Replay
        ensures { (result.left ≤ 0xffff_ffff) × ReadOn uncounted result.tally }
    {
        let file = open_read(rt, name);
        read_on(file, MOST_RECORDS, Tally::new(), record)
    }

    // Counts whether the record in the buffer was answered as expected, and reads the next one over it.
    pub fn next(self, agrees: bool, record: &mut [u8]) -> Replay
        ensures { (result.left ≤ self.left - 1) × ReadOn (counted self.tally agrees) result.tally }
    {
        let tally = self.tally;
        read_on(self.file, self.left, tally.with(agrees), record)
    }
}

// Reads the next record to the buffer, or ends the replay: nothing more may come, and a broken record is a
// difference.
fn read_on(file: Option<File>, left: u64, tally: Tally, record: &mut [u8]) -> Replay
    ensures { (result.left ≤ left - 1) × ReadOn tally result.tally }
{
    if left == 0 {
        return Replay { file, left, tally };
    }
    let Some(mut file) = file else {
        return Replay {
            file: None,
            left: 0,
            tally,
        };
    };
    let next = read_next(&mut file, record);
    let Next::Record(_) = next else {
        let closed = ended(next, tally);
        return Replay {
            file: None,
            left: 0,
            tally: closed,
        };
    };
    Replay {
        file: Some(file),
        left: left - 1,
        tally,
    }
}

// What a replay asks of each record: whether the case in it is answered as told.
pub trait Cases {
    fn agrees(&mut self, record: &[u8]) -> bool;
}

// Judges every record of a file of the folder that the program runs in, each read to the buffer; a file that
// can't be opened has none.
pub fn replay_all<C: Cases>(
    rt: &impl Files<File = File>,
    name: &[u8],
    record: &mut [u8],
    cases: &mut C,
) -> Tally
    ensures { result.differ ≤ result.cases }
{
    let mut run = Replay::of(rt, name, record);
    // a while: it goes on until the file gives no more record, and how many it gives isn't known before
    while 0 < run.left {
        let agreed = cases.agrees(record);
        run = run.next(agreed, record);
    }
    run.tally
}
