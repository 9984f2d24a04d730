// Dense matrices of side 2^n, n from 1 to 6: the port of unitaries.rs over lent buffers. Each call is judged before the first store. The two products are in
// the crate products, and passed on here.
#![tactic(auto)]

ghost use Rattle.book.specs.Answers.{Does};
ghost use Rattle.book.specs.Gates.{finite_tests};
ghost use Rattle.book.specs.Lent.{before, after};
ghost use Rattle.book.specs.Matrices.{numbers_of, gate_matrix, conjugate_transpose};
ghost use Rattle.seated.specs.Judging.{Judges};

use book::{Answer, Matrix, Refusal};
use crossings::fill_crossings;
use matrices::{length, side};
pub use products::{apply_unitary, multiply};
use transposes::turn_all;

// Test 6 of the four amplitudes.
fn own(matrix: Matrix) -> Result<(), Refusal>
    ensures { Judges (finite_tests (numbers_of matrix)) result }
{
    let [a, b, c, d] = matrix.entries;
    judging::numbers(&[a.re, a.im, b.re, b.im, c.re, c.im, d.re, d.im])
}

// A matrix from four finite amplitudes and a target.
pub fn from_single_qubit_gate(
    reals: &mut [f64],
    imags: &mut [f64],
    n: u32,
    target: u32,
    matrix: Matrix,
) -> Answer
    ensures { Does (gate_matrix matrix n target (before reals imags)) result (after reals imags) }
{
    let side = side(n)?;
    length(reals, imags, side * side)?;
    if n <= target {
        return Err(Refusal::Qubit);
    }
    own(matrix)?;
    fill_crossings(reals, imags, matrix, target, side);
    Ok(None)
}

// Every imaginary part negated, then transposed, in place.
pub fn conj_t(reals: &mut [f64], imags: &mut [f64], n: u32) -> Answer
    ensures { Does (conjugate_transpose n (before reals imags)) result (after reals imags) }
{
    let side = side(n)?;
    length(reals, imags, side * side)?;
    turn_all(reals, imags, side);
    Ok(None)
}
