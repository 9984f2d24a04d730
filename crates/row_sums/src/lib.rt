// A matrix times a matrix, row by row: within a row, one inner index after the other is added to all of the row's places. The same sums in the same order as
// place by place, with a straight loop over neighbours. An inner room: its caller, products, is proved to have judged the lengths that are asked.
#![tactic(auto)]

ghost use Rattle.std.specs.Prelude.{◌+◌, ◌*◌, ◌≤◌};
ghost use Rattle.book.specs.Lent.{before, after, here, shown, shown_here};
ghost use Rattle.matrices.specs.Filled.{Holds, Filled};
ghost use Rattle.row_sums.specs.Sums.{Small, row_sum, row_dot, product_at};

use book::Amplitude;
use matrices::{read_at, write_at};
use summands::{add_product, clear_row};

// One inner index: a times a row of B, added to a row of sums.
// Stays: rows by where they begin, here and below: C lends two buffers, and of two parts of them it would have to be said that they are one row (`Holds`).
fn add_row(
    reals: &mut [f64],
    imags: &mut [f64],
    from: usize,
    a: Amplitude,
    br: &[f64],
    bi: &[f64],
    start: usize,
    side: usize,
)
    requires { Holds (from + side) (here reals imags) × Holds (start + side) (shown_here br bi) }
    ensures { Filled from side (row_sum (before reals imags) from a (shown br bi) start) (before reals imags) (after reals imags) }
{
    let re = a.re;
    let im = a.im;
    for j in 0..side {
        let sum = read_at(reals, imags, from + j);
        let b = read_at(br, bi, start + j);
        let next = add_product(sum, Amplitude { re, im }, b);
        write_at(reals, imags, from + j, next);
    }
}

// A row of A·B: each inner index in turn, rising.
fn fill_row(
    ar: &[f64],
    ai: &[f64],
    br: &[f64],
    bi: &[f64],
    reals: &mut [f64],
    imags: &mut [f64],
    from: usize,
    side: usize,
)
    requires { Small side (from + side) × Holds (from + side) (shown_here ar ai) × Holds (side * side) (shown_here br bi)
        × Holds (from + side) (here reals imags) }
    ensures { Filled from side (row_dot side from (shown ar ai) (shown br bi) side) (before reals imags) (after reals imags) }
{
    clear_row(reals, imags, from, side);
    for inner in 0..side {
        let a = read_at(ar, ai, from + inner);
        add_row(reals, imags, from, a, br, bi, inner * side, side);
    }
}

// Every row of A·B.
pub fn fill_product(
    ar: &[f64],
    ai: &[f64],
    br: &[f64],
    bi: &[f64],
    reals: &mut [f64],
    imags: &mut [f64],
    side: usize,
)
    requires { (side ≤ 64) × Holds (side * side) (shown_here ar ai) × Holds (side * side) (shown_here br bi) × Holds (side * side) (here reals imags) }
    ensures { Filled 0 (side * side) (product_at side (shown ar ai) (shown br bi)) (before reals imags) (after reals imags) }
{
    for row in 0..side {
        fill_row(ar, ai, br, bi, reals, imags, row * side, side);
    }
}
