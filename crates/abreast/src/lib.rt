// F of two triples at once, side by side, and of four: so that the compiler makes one computation of two. A multiplier that many triples share is split once.
// An inner room: its functions ask for upper parts that belong to the multipliers, and their callers are proved; a gate keeps its own beside that fact.
#![tactic(auto)]

ghost use Rattle.std.specs.Prelude.{◌≡◌};
ghost use Rattle.book.specs.Gates.{F};
ghost use Rattle.book.specs.State.{amplitude, pair};
ghost use Rattle.abreast.specs.Split.{Split, Beside, times};

use book::{Amplitude, Pair};
use fused::fused;
use short::{Sides, all_meet, all_modest, are_fit, from_both_sides};

// The upper part of k, or 0 where it has none, k being very large or very small, or where s is more than 2 in size.
// Stays: 0 for none: an upper part is never 0, `Beside` says so for every caller, and a loop tests one number (docs/DECISIONS.md, 75).
pub fn upper_beside(k: f64, s: f64) -> f64
    ensures { Beside k s result }
{
    if are_fit(k, s) {
        return exact::upper(k);
    }
    0.0
}

pub fn upper(k: f64) -> f64
    ensures { Split k result }
{
    upper_beside(k, 0.0)
}

// What k and s make of (x,y): two F. half is the upper part of k.
// Stays: the numbers come one by one, here and below: a struct went through memory, and was read as a whole before its parts had arrived.
pub fn two(k: f64, s: f64, half: f64, x: f64, y: f64) -> Amplitude
    requires { Beside k s half }
    ensures { result ≡ times k s (amplitude x y) }
{
    if half != 0.0 && all_modest(x, x, y, y) {
        let re = from_both_sides(x, k, half, -y * s);
        let im = from_both_sides(y, k, half, x * s);
        if all_meet(re, re, im, im) {
            return Amplitude {
                re: re.left,
                im: im.left,
            };
        }
    }
    let re = fused(x, k, -y * s);
    let im = fused(y, k, x * s);
    Amplitude { re, im }
}

// The pair that four make where all meet.
pub fn lefts(re0: Sides, im0: Sides, re1: Sides, im1: Sides) -> Pair
    ensures { result ≡ pair (amplitude re0.left im0.left) (amplitude re1.left im1.left) }
{
    Pair {
        s0: Amplitude {
            re: re0.left,
            im: im0.left,
        },
        s1: Amplitude {
            re: re1.left,
            im: im1.left,
        },
    }
}

// What k and s make of two amplitudes: four F, first those whose values are stored beside each other. half is the upper part of k. All four stand before the
// test whether they meet: up to a branch the compiler works out two at a time.
pub fn four(k: f64, s: f64, half: f64, ab: Amplitude, cd: Amplitude) -> Pair
    requires { Beside k s half }
    ensures { result ≡ pair (times k s ab) (times k s cd) }
{
    let a = ab.re;
    let b = ab.im;
    let c = cd.re;
    let d = cd.im;
    if half != 0.0 && all_modest(a, c, b, d) {
        let re0 = from_both_sides(a, k, half, -b * s);
        let re1 = from_both_sides(c, k, half, -d * s);
        let im0 = from_both_sides(b, k, half, a * s);
        let im1 = from_both_sides(d, k, half, c * s);
        if all_meet(re0, re1, im0, im1) {
            return lefts(re0, im0, re1, im1);
        }
    }
    Pair {
        s0: Amplitude {
            re: fused(a, k, -b * s),
            im: fused(b, k, a * s),
        },
        s1: Amplitude {
            re: fused(c, k, -d * s),
            im: fused(d, k, c * s),
        },
    }
}
