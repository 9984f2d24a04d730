// Tests 1 and 2 alone, of a call whose other tests come later.
ghost use Rattle.book.specs.Kernels.{size_tests};
ghost use Rattle.book.specs.Lent.{shown};
ghost use Rattle.seated.specs.Judging.{Judges};

use book::{MOST_QUBITS, Refusal};
use sizes::{bad_length, bad_size};

// n is 1 to 24, and both buffers have 2^n places.
pub fn size(reals: &[f64], imags: &[f64], n: u32) -> Result<(), Refusal>
    ensures { Judges (size_tests n (shown reals imags)) result }
{
    if bad_size(n, MOST_QUBITS) {
        return Err(Refusal::Size);
    }
    if bad_length(reals, imags, 1 << n) {
        return Err(Refusal::Length);
    }
    Ok(())
}
