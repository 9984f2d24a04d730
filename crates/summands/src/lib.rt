// What both products do at one place of two buffers: a product added to a sum, and a row of sums begun.
// An inner room: its callers, dots and row_sums, are proved to stay within their buffers.
#![tactic(auto)]

ghost use Rattle.std.specs.Prelude.{◌≡◌, ◌+◌};
ghost use Rattle.book.specs.Gates.{nought};
ghost use Rattle.book.specs.Lent.{before, after, here};
ghost use Rattle.book.specs.Matrices.{add_product};
ghost use Rattle.book.specs.State.{amplitude};
ghost use Rattle.matrices.specs.Filled.{Holds, Filled};

use book::Amplitude;

// Product a·b added to a sum.
pub fn add_product(sum: Amplitude, a: Amplitude, b: Amplitude) -> Amplitude
    ensures { result ≡ add_product sum a b }
{
    Amplitude {
        re: sum.re + (a.re * b.re - a.im * b.im),
        im: sum.im + (a.re * b.im + a.im * b.re),
    }
}

// A row of sums starts at 0.0.
// Stays: a row by where it begins, as in row_sums.
pub fn clear_row(reals: &mut [f64], imags: &mut [f64], from: usize, side: usize)
    requires { Holds (from + side) (here reals imags) }
    ensures { Filled from side (λ j. amplitude nought nought) (before reals imags) (after reals imags) }
{
    reals[from..from + side].fill(0.0);
    imags[from..from + side].fill(0.0);
}
