// Plans a day: plan, the day file on standard input.
#![tactic(auto)]

use std::env::Env;
use std::io;
use std::io::Input;
use text_lines::plan_lines::LONGEST_TEXT;
use text_lines::program::{front, is_given, read_full};
use text_plan::text::plan_text;

// Writes one line on standard error that says what is expected.
fn say_expected(rt: &impl Eprint) -> io::Result<()> {
    rt.eprintln("plan: expected no arguments, and a day file on standard input")
}

// Writes the text for the file on standard input.
fn tell(rt: &(impl Input + Print + Eprint)) -> io::Result<()> {
    // One byte more than a file has, to show that it is too long.
    let mut file = [0u8; 26_828];
    let size = read_full(&mut rt.reader(), &mut file);
    let mut text = [0u8; LONGEST_TEXT];
    match plan_text(&file[..size], &mut text) {
        Ok(size) => rt.write_all(front(&text, size)),
        Err(_) => say_expected(rt),
    }
}

fn main(rt: HostRuntime) -> io::Result<()> {
    if is_given(rt.arg(1, &mut [])) {
        return say_expected(&rt);
    }
    tell(&rt)
}
