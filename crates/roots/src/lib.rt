// IEEE 754's squareRoot on f64, in whole numbers.
//
// An ordinary number above zero is made a number times a power of four. The root of that number is worked out digit by digit, with four digits more
// than are kept and rounded to odd, and packed. The other operands need no digits.
#![tactic(auto)]

ghost use Rattle.std.specs.Prelude.{◌≡◌, ◌+◌, ◌*◌, ◌^◌, ◌≤◌, ◌<◌};
ghost use Rattle.std.specs.Float.{binary64};
ghost use Rattle.std.specs.Float.Ieee.{prec};
ghost use Rattle.numbers.specs.Fused as Def;
ghost use Rattle.roots.specs.Steps.{Rooted, Stepped, Squared};

use numbers::{LOW, PRECISION};
use operands::Number;
use rounding::{BELOW, to_odd};

// The two highest digits of a limb have this weight.
const TOP_PAIR: u64 = 0x4000_0000_0000_0000;

// A number of 54 digits goes to the top of a limb by this.
const TO_THE_TOP: u64 = 1024;

// How many digits of the root are worked out.
const TURNS: u64 = PRECISION + 4;

// So many powers of four stand behind the significand while its root is worked out.
const BEHIND: u64 = 30;

// The digits of root_digits, times 2^g of a number times 4^g, stand so many digits above the working unit.
const ABOVE: u64 = BELOW - 1 - BEHIND;

// A root by digits: the digits to come, the root so far and the rest.
#[derive(Clone, Copy)]
struct Partial {
    a: u64,
    q: u64,
    r: u64,
}

// One digit more: the next two digits come down, and 2 * q or 2 * q + 1 is the root so far.
fn root_step(d: Partial) -> Partial
    requires { (d.q < 2 ^ (prec binary64 + 4)) × (d.r ≤ 2 * d.q) }
    ensures { Stepped d.a d.q d.r result.a result.q result.r }
{
    let a = d.a;
    let q = d.q;
    let r = d.r * 4 + a / TOP_PAIR;
    let b = a % TOP_PAIR * 4;
    if 4 * q + 1 <= r {
        Partial {
            a: b,
            q: 2 * q + 1,
            r: r - (4 * q + 1),
        }
    } else {
        Partial { a: b, q: 2 * q, r }
    }
}

// The root of n * 4^BEHIND with one digit more, rounded to odd.
fn root_digits(n: u64) -> u64
    requires { n < 2 ^ (prec binary64 + 1) }
    ensures { Rooted (n * 4 ^ 30) result }
{
    let mut d = Partial {
        a: n * TO_THE_TOP,
        q: 0,
        r: 0,
    };
    for _i in 0..TURNS {
        d = root_step(d);
    }
    to_odd(2 * d.q, d.r)
}

// s * 4^e.
#[derive(Clone, Copy)]
struct Fourfold {
    s: u64,
    e: u64,
}

// m * 2^e smallest values: m is moved up to all its digits, and the exponent made even.
fn even_power(p: Number) -> Fourfold
    ensures { Squared binary64 p.m p.e result.s result.e }
{
    let z = PRECISION - rounding::digits(p.m);
    let n = p.m << z;
    let g = p.e + LOW - z;
    if g % 2 == 0 {
        Fourfold { s: n, e: g / 2 }
    } else {
        Fourfold { s: n * 2, e: g / 2 }
    }
}

// The square root, rounded once.
pub fn root(x: f64) -> f64
    ensures { result ≡ Def.root binary64 x }
{
    if x < 0.0 {
        return f64::NAN;
    }
    let Some(p) = operands::unpack(x) else {
        return operands::with_one_nan(x);
    };
    let c = even_power(p);
    rounding::pack(false, root_digits(c.s), c.e + ABOVE)
}
