// The gate bench for C and Rust, as include/gate_bench.h declares it. Each call hands its numbers and lent buffers to a proved function and tells the answer as
// one number. No call demands anything of its caller but what the header says of pointers.
// Stays: a function for each call, and two buffers beside each other: the C interface.
#![tactic(auto)]

mod deliveries;
mod feeds;
mod kernels;
mod matrix_calls;
mod record_calls;
mod slow_calls;

ghost use Rattle.std.specs.Prelude.{◌≡◌};
ghost use Rattle.std.specs.Float.{binary64};
ghost use Rattle.numbers.specs.Fused as Def;

// F: x*y + z, rounded once.
#[unsafe(no_mangle)]
pub extern "C" fn gate_bench_fused(x: f64, y: f64, z: f64) -> f64
    ensures { result ≡ Def.fused binary64 x y z }
{
    fused::fused(x, y, z)
}

// The square root, rounded once.
#[unsafe(no_mangle)]
pub extern "C" fn gate_bench_root(x: f64) -> f64
    ensures { result ≡ Def.root binary64 x }
{
    roots::root(x)
}
