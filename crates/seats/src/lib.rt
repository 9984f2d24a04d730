// The seat of a gate: tests 1 to 5 of 01's table, in their order. Below judging, in a small crate, since each edit of a test proves its crate anew.
#![tactic(auto)]

ghost use Rattle.std.specs.Prelude.{◌||◌, ◌≡◌, ◌++◌, ◌%◌, ◌^◌, leb};
ghost use Rattle.book.specs.Kernels.{size_tests, seat_tests};
ghost use Rattle.book.specs.Lent.{shown};
ghost use Rattle.seated.specs.Judging.{Judges};

use book::{Controls, MOST_QUBITS, Refusal};
use sizes::{bad_length, bad_size};

// The target, or a bit of the control mask, is n or more: for n up to 24, which a shift need not ask of any other.
fn far(n: u32, target: u32, ones: u32) -> bool
    ensures { result ≡ (leb n target || leb (2 ^ (n % 32)) ones) }
{
    let size: u32 = 1 << (n % 32);
    n <= target || size <= ones
}

// Tests 1 to 5: the seat of a gate that takes up to most controls. What is tested is worked out first, for any numbers; it means what 01 says where the
// tests before it were passed.
pub fn seat(
    reals: &[f64],
    imags: &[f64],
    n: u32,
    target: u32,
    controls: Controls,
    most: u32,
) -> Result<(), Refusal>
    ensures { Judges (size_tests n (shown reals imags) ++ seat_tests most n target controls) result }
{
    let ones = controls.ones;
    let out = bad_size(n, MOST_QUBITS);
    let long = bad_length(reals, imags, 1 << (n % 64));
    let far = far(n, target, ones);
    let same = (ones >> (target % 32)) % 2;
    let many = u32::count_ones(ones);
    if out {
        return Err(Refusal::Size);
    }
    if long {
        return Err(Refusal::Length);
    }
    if far {
        return Err(Refusal::Qubit);
    }
    if same == 1 {
        return Err(Refusal::Same);
    }
    if most < many {
        return Err(Refusal::Form);
    }
    Ok(())
}
