// The rules of X, Y and H on a pair of amplitudes, by value, operation for operation as 01 writes them.
#![tactic(auto)]

ghost use Rattle.std.specs.Prelude.{◌≡◌};
ghost use Rattle.book.specs.Gates.{x_rule, y_rule, h_rule};

use book::{Amplitude, Pair};

pub fn x_rule(p: Pair) -> Pair
    ensures { result ≡ x_rule p }
{
    let ab = p.s0;
    let cd = p.s1;
    Pair { s0: cd, s1: ab }
}

pub fn y_rule(p: Pair) -> Pair
    ensures { result ≡ y_rule p }
{
    let a = p.s0.re;
    let b = p.s0.im;
    let c = p.s1.re;
    let d = p.s1.im;
    Pair {
        s0: Amplitude { re: d, im: -c },
        s1: Amplitude { re: -b, im: a },
    }
}

// The bits are 3FE6A09E667F3BCD.
const ROOT_HALF: f64 = 0.7071067811865476;

pub fn h_rule(p: Pair) -> Pair
    ensures { result ≡ h_rule p }
{
    let a1 = ROOT_HALF * p.s0.re;
    let b1 = ROOT_HALF * p.s0.im;
    let c1 = ROOT_HALF * p.s1.re;
    let d1 = ROOT_HALF * p.s1.im;
    Pair {
        s0: Amplitude {
            re: a1 + c1,
            im: b1 + d1,
        },
        s1: Amplitude {
            re: a1 - c1,
            im: b1 - d1,
        },
    }
}
