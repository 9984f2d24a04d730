// The gate bench: reads a header and frames from standard input, and prints what each delivery answers and the state after them.
#![tactic(auto)]

use act::Fast;
use std::process::ExitCode;

fn main(rt: HostRuntime) -> ExitCode {
    bench_run::run::<Fast, _>(&rt)
}
