// What a call does before it touches a buffer: the tests of 01's table, in their order. A call is judged once: its seat, 1 to 5 (crate seats), and
// then its own tests.
#![tactic(auto)]

mod sized;

ghost use Rattle.std.specs.Prelude.{◌≡◌, ◌++◌};
ghost use Rattle.book.specs.Gates.{all_finite, finite_tests};
ghost use Rattle.book.specs.Kernels.{size_tests};
ghost use Rattle.book.specs.Lent.{shown};
ghost use Rattle.seated.specs.Judging.{Judges, free_tests};

use book::{ANY, Controls, Refusal};
use operands::is_finite;
pub use seats::seat;
pub use sized::size;

// The seat of a gate that takes no control mask: 1 to 3.
pub fn free_seat(reals: &[f64], imags: &[f64], n: u32, target: u32) -> Result<(), Refusal>
    ensures { Judges (size_tests n (shown reals imags) ++ free_tests n target) result }
{
    seat(reals, imags, n, target, Controls::of(0), ANY)
}

// Each number is finite.
pub fn all_finite(numbers: &[f64]) -> bool
    ensures { result ≡ all_finite numbers.now }
{
    numbers.iter().all(|x| is_finite(*x))
}

// Test 6 of the numbers that a gate is fed.
pub fn numbers(fed: &[f64]) -> Result<(), Refusal>
    ensures { Judges (finite_tests fed.now) result }
{
    if all_finite(fed) {
        return Ok(());
    }
    Err(Refusal::Number)
}
