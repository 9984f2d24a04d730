// An f64 and its bits, as gate records hold it: the bits of every NaN are read as the one NaN, which is written as 7FF8000000000000.
// proofs/ has what the reader and the writer share: numbers and floats as bytes, there and back, and fields.
#![tactic(auto)]

ghost use Rattle.std.specs.Prelude.{◌≡◌};
ghost use Rattle.std.specs.Float.{binary64};
ghost use Rattle.std.specs.Float.Ieee.{of_bits, to_bits};

use numbers::{INFINITY, SIGN};

// The bits that a NaN is written as.
const NAN: u64 = 0x7ff8_0000_0000_0000;

// The f64 that has these bits: less their sign, what is above an infinity's is a NaN.
pub fn float_of(bits: u64) -> f64
    ensures { result ≡ of_bits binary64 bits }
{
    if INFINITY < bits % SIGN {
        f64::NAN
    } else {
        f64::from_bits(bits)
    }
}

// The bits of an f64.
pub fn bits_of(x: f64) -> u64
    ensures { result ≡ to_bits binary64 x }
{
    if x.is_nan() { NAN } else { x.to_bits() }
}
