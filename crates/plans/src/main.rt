// Lists a day's plans: plans [FIRST [ROOM [BUDGET]]], the day file on standard input.
#![tactic(auto)]

use std::env::{Env, FillError};
use std::io;
use std::io::Input;
use text_lines::number::number_of;
use text_lines::program::{front, is_given, read_full};
use text_plans::text::{LONGEST_TEXT, plans_text};

// The number of the first plan where FIRST is left out (docs/PLANS.md).
const FIRST: u64 = 0;

// The room of the page where ROOM is left out.
const ROOM: u64 = 100;

// The budget where BUDGET is left out.
const BUDGET: u64 = 2_000_000;

// An argument's number, or the default where it isn't given.
fn argument(rt: &impl Env, at: usize, default: u64) -> Option<u64> {
    // A longer argument is no number.
    let mut bytes = [0u8; 4096];
    match rt.arg(at, &mut bytes) {
        Ok(count) => number_of(&bytes[..count]),
        Err(FillError::TooLong) => None,
        Err(FillError::NotPresent) => Some(default),
    }
}

// Writes one line on standard error that says what is expected.
fn say_expected(rt: &impl Eprint) -> io::Result<()> {
    rt.eprintln(
        "plans: expected [FIRST [ROOM [BUDGET]]], each a number below 2^64, ROOM at most 1024",
    )
}

// Writes the text for the file on standard input.
fn list(rt: &(impl Input + Print + Eprint), first: u64, room: u64, budget: u64) -> io::Result<()> {
    // One byte more than a file has, to show that it is too long.
    let mut file = [0u8; 26_828];
    let size = read_full(&mut rt.reader(), &mut file);
    let mut text = [0u8; LONGEST_TEXT];
    match plans_text(&file[..size], first, room, budget, &mut text) {
        Ok(size) => rt.write_all(front(&text, size)),
        Err(_) => say_expected(rt),
    }
}

fn main(rt: HostRuntime) -> io::Result<()> {
    if is_given(rt.arg(4, &mut [])) {
        return say_expected(&rt);
    }
    let Some(first) = argument(&rt, 1, FIRST) else {
        return say_expected(&rt);
    };
    let Some(room) = argument(&rt, 2, ROOM) else {
        return say_expected(&rt);
    };
    let Some(budget) = argument(&rt, 3, BUDGET) else {
        return say_expected(&rt);
    };
    list(&rt, first, room, budget)
}
