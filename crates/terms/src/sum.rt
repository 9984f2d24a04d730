// x * y + z of ordinary numbers: the two terms brought to one unit and added or subtracted, exactly but for digits that rounding to odd may stand for.
ghost use Rattle.std.specs.Prelude.{◌≡◌, ◌+◌, ◌*◌, ◌^◌, ◌<◌};
ghost use Rattle.std.specs.Float.{binary64};
ghost use Rattle.std.specs.Float.Ieee.{size, round, sum};
ghost use Rattle.rounding.specs.Odd.{cut_to_odd};
ghost use Rattle.terms.specs.Terms.{upper, Terms, multiply_add};
ghost use Rattle.rounding.specs.Working.{scale, far};

use numbers::LOW;
use operands::Number;
use rounding::{shift_to_odd, to_odd};

// What the upper 64 of 128 digits count.
const LIMB: u128 = 0x1_0000_0000_0000_0000;

// s * 2^e.
// Stays: roots has a like struct, of powers of four: each holds two numbers, and the clauses say what of.
#[derive(Clone, Copy)]
struct Scaled {
    s: u64,
    e: u64,
}

// w * 2^e in 64 bits: the lower digits are cut off, and it is rounded to odd.
// Stays: the bound of e, here and below: no plainer as a type of one number, which each call would make and take apart again.
fn squeeze(w: u128, e: u64) -> Scaled
    requires { (w < 2 ^ 127) × (e < far binary64) }
    ensures { (result.s ≡ cut_to_odd w (size (upper w))) × (result.e ≡ e + size (upper w)) }
{
    let n = rounding::digits((w >> 64) as u64);
    let q = w >> n;
    Scaled {
        s: to_odd(q as u64, (w - (q << n)) as u64),
        e: e + n,
    }
}

// w * 2^e working units, rounded once.
fn pack_wide(neg: bool, w: u128, e: u64) -> f64
    requires { (w < 2 ^ 127) × (e < far binary64) }
    ensures { result ≡ round binary64 neg (w * 2 ^ e) (scale binary64) }
{
    let c = squeeze(w, e);
    rounding::pack(neg, c.s, c.e)
}

// ±a ± b, each times 2^e working units, rounded once. What is exactly zero is +0: two terms of one sign are never that.
fn pack_sum(p: bool, a: u128, m: bool, b: u128, e: u64) -> f64
    requires { (a + b < 2 ^ 127) × (e < far binary64) }
    ensures { result ≡ sum binary64 p (a * 2 ^ e) m (b * 2 ^ e) (scale binary64) }
{
    if p == m {
        pack_wide(p, a + b, e)
    } else if a < b {
        pack_wide(m, b - a, e)
    } else if b < a {
        pack_wide(p, a - b, e)
    } else {
        0.0
    }
}

// ±w * 2^a ± m * 2^b working units, rounded once. Where they are far apart the smaller one is cut, and rounded to odd.
fn aligned(p: bool, w: u128, a: u64, t: bool, m: u64, b: u64) -> f64
    requires { Terms binary64 w a m b }
    ensures { result ≡ sum binary64 p (w * 2 ^ a) t (m * 2 ^ b) (scale binary64) }
{
    if b < a {
        return pack_sum(p, w, t, u128::from(shift_to_odd(m, a - b)), a);
    }
    let d = b - a;
    if d < 64 {
        return pack_sum(p, w, t, u128::from(m) << d, a);
    }
    let hi = (w >> 64) as u64;
    let lo = (w % LIMB) as u64;
    let cut = shift_to_odd(to_odd(hi, lo), d - 64);
    pack_sum(p, u128::from(cut), t, u128::from(m), b)
}

// The significands are moved up, a factor's by 11 digits and the addend's by 10: the product's lower 64 are then full.
// What the exponents count from is the working unit, with 16 digits to spare.
const FACTOR_UP: u64 = 2048;

const FACTOR_BELOW: u64 = 5;

const TERM_UP: u64 = 1024;

const TERM_BELOW: u64 = LOW + 6;

// x * y + z, rounded once.
pub(crate) fn multiply_add(x: Number, y: Number, z: Number) -> f64
    ensures { result ≡ multiply_add binary64 x.neg x.m x.e y.neg y.m y.e z.neg z.m z.e }
{
    aligned(
        x.neg != y.neg,
        u128::from(x.m * FACTOR_UP) * u128::from(y.m),
        x.e + y.e + FACTOR_BELOW,
        z.neg,
        z.m * TERM_UP,
        z.e + TERM_BELOW,
    )
}
