// A matrix times a state: each row's sum starts at 0.0 and runs by rising inner index.
// An inner room: its caller, products, is proved to have judged the lengths that are asked.
#![tactic(auto)]

ghost use Rattle.std.specs.Prelude.{◌≡◌, ◌+◌, ◌*◌, ◌≤◌};
ghost use Rattle.book.specs.Lent.{before, after, here, shown, shown_here};
ghost use Rattle.matrices.specs.Filled.{Holds, Filled};
ghost use Rattle.dots.specs.Dots.{state_dot};

use book::Amplitude;
use matrices::{read_at, write_at};
use summands::add_product;

// A row of A times a state.
// Stays: a row by where it begins: C lends two buffers, and of two parts of them it would have to be said that they are one row (`Holds`).
fn row_dot(ar: &[f64], ai: &[f64], br: &[f64], bi: &[f64], from: usize, side: usize) -> Amplitude
    requires { Holds (from + side) (shown_here ar ai) × Holds side (shown_here br bi) }
    ensures { result ≡ state_dot (shown ar ai) from (shown br bi) side }
{
    let mut sum = Amplitude { re: 0.0, im: 0.0 };
    for inner in 0..side {
        let a = read_at(ar, ai, from + inner);
        let b = read_at(br, bi, inner);
        sum = add_product(sum, a, b);
    }
    sum
}

// Every place of A times a state.
pub fn fill_state(
    ar: &[f64],
    ai: &[f64],
    br: &[f64],
    bi: &[f64],
    reals: &mut [f64],
    imags: &mut [f64],
    side: usize,
)
    requires { (side ≤ 64) × Holds (side * side) (shown_here ar ai) × Holds side (shown_here br bi) × Holds side (here reals imags) }
    ensures { Filled 0 side (λ row. state_dot (shown ar ai) (row * side) (shown br bi) side) (before reals imags) (after reals imags) }
{
    for row in 0..side {
        let z = row_dot(ar, ai, br, bi, row * side, side);
        write_at(reals, imags, row, z);
    }
}
