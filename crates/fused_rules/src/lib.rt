// The rules of RZ, and of P at s1. By value, operation for operation as 01 writes them. Where the numbers are near 1 their F stand side by side, behind one
// test of the numbers and before one of the sides; what they multiply with is split once, where the gate is made.
#![tactic(auto)]

ghost use Rattle.std.specs.Prelude.{◌≡◌};
ghost use Rattle.abreast.specs.Split.{Split, Beside};
ghost use Rattle.abreast.specs.Unique.{split_prop, beside_prop};
ghost use Rattle.book.specs.Gates as Gates;
ghost use Rattle.book.specs.Gates.{−◌, rz_rule};
ghost use Rattle.book.specs.State.{pair};
ghost use Rattle.fused_rules.specs.Uppers.{p_upper};

use abreast::{four, lefts, two, upper, upper_beside};
use book::{Amplitude, Angle, Pair};
use fused::fused;
use rules::{Rule, UpperRule};
use short::{all_meet, all_modest, from_both_sides};

// RZ of an angle, with the upper parts of its k, s and t = -s. The angle is the half angle.
#[derive(Clone, Copy)]
pub struct Rz {
    pub angle: Angle,
    k: f64,
    s: f64,
    t: f64,
    ghost k_split: { Beside angle.cosine angle.sine k } by { beside_prop angle.cosine angle.sine k },
    ghost s_split: { Beside angle.sine angle.cosine s } by { beside_prop angle.sine angle.cosine s },
    ghost t_split: { Split (− angle.sine) t } by { split_prop (− angle.sine) t },
}

impl Rz {
    pub fn of(angle: Angle) -> Rz
        ensures { result.angle ≡ angle }
    {
        Rz {
            angle,
            k: upper_beside(angle.cosine, angle.sine),
            s: upper_beside(angle.sine, angle.cosine),
            t: upper(-angle.sine),
        }
    }
}

// m and (x,y).
fn turned(m: Amplitude, z: Amplitude) -> Amplitude
    ensures { result ≡ Gates.turned m z }
{
    let x = z.re;
    let y = z.im;
    let re = fused(x, m.re, -y * m.im);
    let im = fused(x, m.im, y * m.re);
    Amplitude { re, im }
}

// Four F at once where all their sides meet, and else one by one.
fn rz_rule(h: Rz, p: Pair) -> Pair
    ensures { result ≡ rz_rule h.angle p }
{
    let k = h.angle.cosine;
    let s = h.angle.sine;
    let a = p.s0.re;
    let b = p.s0.im;
    let c = p.s1.re;
    let d = p.s1.im;
    if h.k != 0.0 && h.s != 0.0 && h.t != 0.0 && all_modest(a, c, b, d) {
        let re0 = from_both_sides(a, k, h.k, -b * -s);
        let im0 = from_both_sides(a, -s, h.t, b * k);
        let re1 = from_both_sides(c, k, h.k, -d * s);
        let im1 = from_both_sides(c, s, h.s, d * k);
        if all_meet(re0, im0, re1, im1) {
            return lefts(re0, im0, re1, im1);
        }
    }
    let s0 = turned(Amplitude { re: k, im: -s }, p.s0);
    let s1 = turned(Amplitude { re: k, im: s }, p.s1);
    Pair { s0, s1 }
}

impl Rule for Rz {
    ghost rule = { λ rz. rz_rule rz.angle };

    const NEEDS_F: bool = true;

    fn put(self, p: Pair) -> Pair {
        rz_rule(self, p)
    }
}

// P of an angle, with the upper part of its cosine.
#[derive(Clone, Copy)]
pub struct P {
    pub angle: Angle,
    half: f64,
    ghost split: { Beside angle.cosine angle.sine half } by { beside_prop angle.cosine angle.sine half },
}

impl P {
    pub fn of(angle: Angle) -> P
        ensures { result.angle ≡ angle }
    {
        P {
            angle,
            half: upper_beside(angle.cosine, angle.sine),
        }
    }
}

impl UpperRule for P {
    ghost upper = { λ p. p_upper p.angle };

    const JOINS: bool = false;

    fn put_upper(self, cd: Amplitude) -> Amplitude {
        let angle = self.angle;
        two(angle.cosine, angle.sine, self.half, cd.re, cd.im)
    }

    fn put_uppers(self, ab: Amplitude, cd: Amplitude) -> Pair {
        let angle = self.angle;
        four(angle.cosine, angle.sine, self.half, ab, cd)
    }
}
