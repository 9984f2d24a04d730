// The gate bench by the slow engine: reads what gate_bench reads, and prints the same lines.
#![tactic(auto)]

use act::Slow;
use std::process::ExitCode;

fn main(rt: HostRuntime) -> ExitCode {
    bench_run::run::<Slow, _>(&rt)
}
