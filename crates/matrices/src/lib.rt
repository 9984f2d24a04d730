// What every matrix call asks first: n from 1 to 6, and each buffer of exactly its length; and an amplitude read and written at one place of two buffers.
// With it go the laws of stretches of places that were filled.
#![tactic(auto)]

ghost use Rattle.std.specs.Prelude.{◌||◌, ◌≡◌, ◌+◌, [], ◌∷◌};
ghost use Rattle.book.specs.Answers.{◌⇒◌};
ghost use Rattle.book.specs.Kernels.{bad_length};
ghost use Rattle.book.specs.Lent.{before, after, here, shown, shown_here};
ghost use Rattle.book.specs.State.{at};
ghost use Rattle.matrices.specs.Filled.{Holds, Filled};
ghost use Rattle.matrices.specs.Sided.{Sided};
ghost use Rattle.seated.specs.Judging.{Judges};

use book::{Amplitude, Refusal};
use sizes::{bad_length, bad_size};

// n is 1 to 6 for matrices.
const MOST_MATRIX: u32 = 6;

// Test 1, and the side of a matrix that passes it.
pub fn side(n: u32) -> Result<usize, Refusal>
    ensures { Sided n result }
{
    if bad_size(n, MOST_MATRIX) {
        return Err(Refusal::Size);
    }
    Ok(1 << n)
}

// Test 2 of a pair of buffers.
pub fn length(reals: &[f64], imags: &[f64], size: usize) -> Result<(), Refusal>
    ensures { Judges (bad_length size (shown reals imags) ⇒ 2 ∷ []) result }
{
    if bad_length(reals, imags, size) {
        return Err(Refusal::Length);
    }
    Ok(())
}

// Test 2 of the three pairs of buffers of a product.
pub fn lengths(
    ar: &[f64],
    ai: &[f64],
    entries: usize,
    br: &[f64],
    bi: &[f64],
    reals: &[f64],
    imags: &[f64],
    size: usize,
) -> Result<(), Refusal>
    ensures { Judges ((bad_length entries (shown ar ai) || bad_length size (shown br bi) || bad_length size (shown reals imags)) ⇒ 2 ∷ []) result }
{
    length(ar, ai, entries)?;
    length(br, bi, size)?;
    length(reals, imags, size)
}

// The amplitude at a place.
pub fn read_at(reals: &[f64], imags: &[f64], i: usize) -> Amplitude
    requires { Holds (i + 1) (shown_here reals imags) }
    ensures { result ≡ at (shown reals imags) i }
{
    Amplitude {
        re: reals[i],
        im: imags[i],
    }
}

// An amplitude stored to a place.
pub fn write_at(reals: &mut [f64], imags: &mut [f64], i: usize, z: Amplitude)
    requires { Holds (i + 1) (here reals imags) }
    ensures { Filled i 1 (λ j. z) (before reals imags) (after reals imags) }
{
    reals[i] = z.re;
    imags[i] = z.im;
}
