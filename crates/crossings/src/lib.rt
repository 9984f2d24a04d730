// A matrix from four amplitudes and a target: those at the pairs' crossings, 0.0 elsewhere.
// An inner room: its caller, unitaries, is proved to have judged the numbers that are asked.
#![tactic(auto)]

ghost use Rattle.std.specs.Prelude.{◌≡◌, ◌+◌, ◌*◌, ◌/◌, ◌%◌, ◌≤◌, ◌<◌};
ghost use Rattle.book.specs.Lent.{before, after, here};
ghost use Rattle.book.specs.Matrices.{crossing, without_target};
ghost use Rattle.matrices.specs.Filled.{Holds, Filled};

use book::{Amplitude, Matrix};
use matrices::write_at;

// An index without its target bit: the two places of a pair share it.
// Stays: the bound of target, here and below: no plainer as a type of one number, which a call would make and take apart again.
fn without_target(target: u32, i: usize) -> usize
    requires { target < 6 }
    ensures { result ≡ without_target target i }
{
    let bit: usize = 1 << target;
    i - (i >> target) % 2 * bit
}

// The entry at a row and a column. The matrix is lent: by value it was stored anew for each place.
fn crossing_at(matrix: &Matrix, target: u32, row: usize, column: usize) -> Amplitude
    requires { target < 6 }
    ensures { result ≡ crossing matrix.now target row column }
{
    let entries = &matrix.entries;
    if without_target(target, row) != without_target(target, column) {
        return Amplitude { re: 0.0, im: 0.0 };
    }
    entries[2 * ((row >> target) % 2) + (column >> target) % 2]
}

pub fn fill_crossings(
    reals: &mut [f64],
    imags: &mut [f64],
    matrix: Matrix,
    target: u32,
    side: usize,
)
    requires { (target < 6) × (1 ≤ side) × (side ≤ 64) × Holds (side * side) (here reals imags) }
    ensures { Filled 0 (side * side) (λ k. crossing matrix target (k / side) (k % side)) (before reals imags) (after reals imags) }
{
    for place in 0..side * side {
        let z = crossing_at(&matrix, target, place / side, place % side);
        write_at(reals, imags, place, z);
    }
}
