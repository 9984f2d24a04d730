// The stored runs of the gate bench, one after the other: each argument names a file, which is run as both programs run their standard input, under a line
// with its name: by the kernels, and then by the slow engine. docs/VECTORS-BENCH.md says what each shows and how it was made.
#![tactic(auto)]

use act::{Engine, Fast, Slow};
use std::rt::Files;
use std::{env, fs, io};

// By a call of its own: set into its caller, each engine's buffers would lie on the stack at once.
#[inline(never)]
fn run_stored<E: Engine, T: Files + Print>(rt: &T, name: &str, heading: &str) -> io::Result<()> {
    println!(rt; "{name}{heading}")?;
    match fs::open(rt, name) {
        Ok(mut input) => {
            let _ = bench_run::run_from::<E, _, _>(&mut input, &mut io::writer(rt));
            Ok(())
        }
        Err(_) => println!(rt; "NOT OPENED"),
    }
}

fn run_argument<T: Files + Print>(rt: &T, name: &str) -> io::Result<()> {
    run_stored::<Fast, T>(rt, name, ":")?;
    run_stored::<Slow, T>(rt, name, " by the slow engine:")
}

// Argument 0 is the program's own name.
// Stays: cut_streams has these lines too, and says why.
fn main(rt: HostRuntime) -> io::Result<()> {
    for name in env::args(&rt)?.skip(1) {
        run_argument(&rt, name.as_str())?;
    }
    Ok(())
}
