// The one place where an answer is rounded: a count of working units, s * 2^e, becomes the nearest f64, a tie the even one.
//
// Of the count in smallest values an f64 keeps PRECISION leading digits and drops k. It is first cut to two digits more, rounded to odd: a count of
// quarters. The nearest whole number q to those is the significand, and q * 2^k in bits is k * HIDDEN + q, whether q is subnormal, normal, or one digit
// too long after rounding; from the infinity's bits on it is the infinity.
#![tactic(auto)]

mod odd;

ghost use Rattle.std.specs.Prelude.{◌≡◌, ◌+◌, ◌-◌, ◌*◌, ◌^◌, ◌<◌};
ghost use Rattle.std.specs.Float.{binary64};
ghost use Rattle.std.specs.Float.Ieee.{prec, size, units, round};
ghost use Rattle.std.specs.Float.Ieee.Nearest.{closest};
ghost use Rattle.rounding.specs.Odd.{cut_to_odd};
ghost use Rattle.rounding.specs.Working.{below, scale, far, Kept};

use numbers::{HIDDEN, INFINITY, LOW, PRECISION, SIGN};
pub use odd::{shift_to_odd, to_odd};

// The working unit lies so many digits below the smallest value: the smallest value's square, with 16 digits to spare.
pub const BELOW: u64 = LOW + 16;

// A count of so many digits loses none, and with k digits more it loses k.
const KEPT: u64 = BELOW + PRECISION;

// A quarter of the smallest value lies so many digits above the working unit.
const QUARTER: u64 = BELOW - 2;

// With this exponent or a higher one a count lies far beyond the largest f64, and below it no sum of exponents overflows.
const FAR: u64 = 4160;

// Whatever has dropped so many digits is an infinity.
const TOO_MANY: u64 = 2047;

// How many binary digits x has.
pub fn digits(x: u64) -> u64
    ensures { result ≡ size x }
{
    64 - (u64::leading_zeros(x) as u64)
}

// How many digits of s * 2^e working units an f64 drops.
// Stays: the bound of e, here and below: no plainer as a type of one number, which pack would make and each function take apart again.
fn dropped(s: u64, e: u64) -> u64
    requires { e < far binary64 + 64 }
    ensures { result ≡ size s + e - (below binary64 + prec binary64) }
{
    (digits(s) + e).saturating_sub(KEPT)
}

// s * 2^e working units as quarters of 2^k smallest values, rounded to odd.
fn quarters(s: u64, e: u64, k: u64) -> u64
    requires { (e < far binary64 + 64) × (k ≡ size s + e - (below binary64 + prec binary64)) }
    ensures { result ≡ cut_to_odd (s * 2 ^ e) (below binary64 - 2 + k) }
{
    let cut = QUARTER + k;
    if e <= cut {
        shift_to_odd(s, cut - e)
    } else {
        s << (e - cut)
    }
}

// The whole number nearest to t / 4, a tie to the even one.
fn quarter(t: u64) -> u64
    requires { t < 2 ^ 63 }
    ensures { result ≡ closest t 4 }
{
    let q = t / 4;
    let r = t % 4;
    if r + q % 2 < 3 { q } else { q + 1 }
}

// q * 2^k smallest values.
fn assemble(neg: bool, q: u64, k: u64) -> f64
    requires { Kept binary64 q k }
    ensures { result ≡ units binary64 neg q k }
{
    let bits = (k * HIDDEN + q).min(INFINITY);
    f64::from_bits(if neg { bits + SIGN } else { bits })
}

// The f64 nearest to s * 2^e working units, for an s above 0 and an e below FAR.
fn pack_near(neg: bool, s: u64, e: u64) -> f64
    requires { (0 < s) × (e < far binary64 + 64) }
    ensures { result ≡ round binary64 neg (s * 2 ^ e) (scale binary64) }
{
    let k = dropped(s, e);
    let t = quarters(s, e, k);
    assemble(neg, quarter(t), k)
}

// The f64 nearest to s * 2^e working units, for every s and e.
pub fn pack(neg: bool, s: u64, e: u64) -> f64
    ensures { result ≡ round binary64 neg (s * 2 ^ e) (scale binary64) }
{
    if s == 0 {
        return assemble(neg, 0, 0);
    }
    if e < FAR {
        return pack_near(neg, s, e);
    }
    assemble(neg, HIDDEN, TOO_MANY)
}
