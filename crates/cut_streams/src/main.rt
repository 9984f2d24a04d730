// Takes stored streams apart: each argument names a file, a header with frames behind it. They are fed whole, in two pieces cut at every place, and
// byte by byte; answers, count, every place of the state and what is kept at the end must be the whole's. docs/VECTORS-BENCH.md has the files.
#![tactic(auto)]

ghost use Rattle.io.specs.Counts.{IsPrefixLen};

mod apart;
mod compare;

use apart::take_apart;
use headers::{behind_header, read_header};
use reading::read_full;
use sessions::Session;
use std::rt::Files;
use std::{env, fs, io};

// The longest of the files, and a byte more: a longer one is not taken apart.
const MOST: usize = 11845;

fn say(rt: &impl Print, name: &str, words: &str) -> io::Result<()> {
    print!(rt; "{name}{words}")
}

fn say_count(rt: &impl Print, count: u64, words: &str) -> io::Result<()> {
    print!(rt; "{count}{words}")
}

// How many cuts there were, and how many of them gave anything else than the whole.
fn report(rt: &impl Print, name: &str, session: Session, frames: &[u8]) -> io::Result<()> {
    let tally = take_apart(session, frames);
    say(rt, name, ": ")?;
    say_count(rt, frames.len() as u64, " bytes, ")?;
    say_count(rt, tally.cuts, " cuts in two and one byte by byte, ")?;
    say_count(rt, tally.answers as u64, " answers: ")?;
    say_count(rt, tally.differ, " differ\n")
}

fn run_input(rt: &impl Print, name: &str, input: &[u8]) -> io::Result<()> {
    let Some(header) = read_header(input) else {
        return say(rt, name, ": BAD HEADER\n");
    };
    let session = Session::fresh(header.n, header.session);
    report(rt, name, session, behind_header(input))
}

// Of a file that is not opened nothing is read, and so no header.
fn read_stored(rt: &impl Files, name: &str, space: &mut [u8]) -> usize
    ensures { IsPrefixLen result space.new }
{
    match fs::open(rt, name) {
        Ok(mut input) => read_full(&mut input, space).unwrap_or(0),
        Err(_) => 0,
    }
}

fn run_stored(rt: &(impl Files + Print), name: &str) -> io::Result<()> {
    let mut space = [0u8; MOST];
    let got = read_stored(rt, name, &mut space);
    if got == MOST {
        return say(rt, name, ": TOO LONG\n");
    }
    run_input(rt, name, &space[..got])
}

// Argument 0 is the program's own name.
// Stays: three lines that stored_runs has too: no plainer as a function that takes what to do with a name.
fn main(rt: HostRuntime) -> io::Result<()> {
    for name in env::args(&rt)?.skip(1) {
        run_stored(&rt, name.as_str())?;
    }
    Ok(())
}
