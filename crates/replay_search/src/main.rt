// Replays searches: whole days that the oracle answered, and calls told from 01 alone, most of them refused.
#![tactic(auto)]

use std::io;
use test_cases::replay::{Cases, replay_all};

mod days;
mod refusals;

// The searches of a file, of which each record tells one with its day.
#[derive(Clone, Copy)]
struct Searches;

impl Cases for Searches {
    fn agrees(&mut self, record: &[u8]) -> bool {
        days::agrees(record)
    }
}

// The calls of a file, of which each record tells one, most of them refused.
#[derive(Clone, Copy)]
struct Calls;

impl Cases for Calls {
    fn agrees(&mut self, record: &[u8]) -> bool {
        refusals::agrees(record)
    }
}

fn main(rt: HostRuntime) -> io::Result<()> {
    let mut record = [0u8; 32768];
    let days = replay_all(&rt, b"cases", &mut record, &mut Searches);
    days.tell(&rt, b"search")?;
    let refusals = replay_all(&rt, b"refusals", &mut record, &mut Calls);
    refusals.tell(&rt, b"refusals")
}
