// A float as an operand: whether it is finite, whether it is an ordinary number (finite and not zero), and such a number taken apart.
#![tactic(auto)]

ghost use Rattle.std.specs.Prelude.{◌≡◌, ◌*◌, ◌^◌, T, not, MatchOption};
ghost use Rattle.std.specs.Float.{binary64};
ghost use Rattle.std.specs.Float.Ieee.{low};
ghost use Rattle.std.specs.Float.Ieee.Exact.{HasValue};
ghost use Rattle.std.specs.Float.Ieee.Scale.{finite};
ghost use Rattle.operands.specs.Operands.{is_zero, ordinary, Fields};

use numbers::{HIDDEN, SIGN};

// Neither NaN nor infinite: only then is x - x a number. std's own test compares that with 0 besides, and F of a zero addend took half as long again with it.
pub fn is_finite(x: f64) -> bool
    ensures { result ≡ finite x }
{
    !(x - x).is_nan()
}

fn is_zero(x: f64) -> bool
    ensures { result ≡ is_zero x }
{
    x == 0.0
}

pub fn is_ordinary(x: f64) -> bool
    ensures { result ≡ ordinary x }
{
    is_finite(x) && !is_zero(x)
}

// The processor has many NaN, and makes one with a sign; the logic has one. So where one may arise, std's stands in its place, 7FF8000000000000.
pub fn with_one_nan(x: f64) -> f64
    ensures { result ≡ x }
{
    if x.is_nan() { f64::NAN } else { x }
}

// An ordinary number: m * 2^e smallest values, with a sign.
#[derive(Clone, Copy)]
pub struct Number {
    pub neg: bool,
    pub m: u64,
    pub e: u64,
    ghost fields: { Fields binary64 m e },
}

// A subnormal number has no leading digit of its own, and the exponent of the smallest normal ones.
fn fields(x: f64) -> Number
    requires { T (ordinary x) }
    ensures { HasValue x result.neg (result.m * 2 ^ result.e) (2 ^ low binary64) }
{
    let bits = f64::to_bits(x);
    let neg = SIGN <= bits;
    let field = bits % SIGN / HIDDEN;
    let digits = bits % HIDDEN;
    if field == 0 {
        return Number {
            neg,
            m: digits,
            e: 0,
        };
    }
    Number {
        neg,
        m: HIDDEN + digits,
        e: field - 1,
    }
}

// An ordinary number taken apart; any other operand is none.
pub fn unpack(x: f64) -> Option<Number>
    ensures { MatchOption result (T (not (ordinary x))) (λ p. T (ordinary x) × HasValue x p.neg (p.m * 2 ^ p.e) (2 ^ low binary64)) }
{
    if is_ordinary(x) {
        Some(fields(x))
    } else {
        None
    }
}
