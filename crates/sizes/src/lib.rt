// Tests 1 and 2 of every call on buffers: n in its range, and both buffers of exactly the length that is asked.
#![tactic(auto)]

ghost use Rattle.std.specs.Prelude.{◌≡◌};
ghost use Rattle.book.specs.Kernels.{bad_size, bad_length};
ghost use Rattle.book.specs.Lent.{shown};

// n is not 1 to most.
pub fn bad_size(n: u32, most: u32) -> bool
    ensures { result ≡ bad_size most n }
{
    n < 1 || most < n
}

// A buffer is not of exactly the length that is asked.
pub fn bad_length(reals: &[f64], imags: &[f64], size: usize) -> bool
    ensures { result ≡ bad_length size (shown reals imags) }
{
    reals.len() != size || imags.len() != size
}
