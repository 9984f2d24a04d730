// The slow engine's rules: each gate's as 01 lists it, with (a,b) at s0 and (c,d) at s1: each sum, difference and product rounds once, in the order written.
// And what a gate with a rule asks: how many controls it takes, and its own tests.
#![tactic(auto)]

ghost use Rattle.std.specs.Prelude.{◌≡◌};
ghost use Rattle.book.specs.Gates as Gates;
ghost use Rattle.book.specs.Gates.{h_rule, p_rule, rx_rule, ry_rule, rz_rule, u_matrix, u_rule};
ghost use Rattle.book.specs.State.{amplitude, pair};
ghost use Rattle.seated.specs.Judging.{Judges};
ghost use Rattle.slow_rules.specs.Rules.{rule_of, most_of, own_of};

use book::{ANY, Amplitude, Angle, Angles, Pair, Refusal};
use fused::fused;
use judging::numbers;

// The gates that have a rule, with the numbers that each is fed.
#[derive(Clone, Copy)]
pub enum Rule {
    H,
    X,
    Y,
    Z,
    P(Angle),
    Rx(Angle),
    Ry(Angle),
    Rz(Angle),
    U(Angles),
}

// s0 = (x,y), s1 = (z,w).
fn becomes(x: f64, y: f64, z: f64, w: f64) -> Pair
    ensures { result ≡ Gates.becomes (x, y) (z, w) }
{
    let s0 = Amplitude { re: x, im: y };
    let s1 = Amplitude { re: z, im: w };
    Pair { s0, s1 }
}

// The bits are 3FE6A09E667F3BCD.
const H: f64 = 0.7071067811865476;

// Stays: a, b, c and d one by one, here and below, as 01 writes the rules: each function would have to take a pair apart first.
fn h(a: f64, b: f64, c: f64, d: f64) -> Pair
    ensures { result ≡ h_rule (Gates.becomes (a, b) (c, d)) }
{
    let a1 = H * a;
    let b1 = H * b;
    let c1 = H * c;
    let d1 = H * d;
    becomes(a1 + c1, b1 + d1, a1 - c1, b1 - d1)
}

// Cosine k and sine s of the angle; s0 keeps its bits.
fn p(angle: Angle, a: f64, b: f64, c: f64, d: f64) -> Pair
    ensures { result ≡ p_rule angle (Gates.becomes (a, b) (c, d)) }
{
    let k = angle.cosine;
    let s = angle.sine;
    becomes(a, b, fused(c, k, -d * s), fused(d, k, c * s))
}

// RX, RY and RZ take k and s of the half angle.
fn rx(angle: Angle, a: f64, b: f64, c: f64, d: f64) -> Pair
    ensures { result ≡ rx_rule angle (Gates.becomes (a, b) (c, d)) }
{
    let k = angle.cosine;
    let w = -angle.sine;
    becomes(a * k - d * w, b * k + c * w, c * k - b * w, d * k + a * w)
}

fn ry(angle: Angle, a: f64, b: f64, c: f64, d: f64) -> Pair
    ensures { result ≡ ry_rule angle (Gates.becomes (a, b) (c, d)) }
{
    let k = angle.cosine;
    let s = angle.sine;
    becomes(a * k - c * s, b * k - d * s, a * s + c * k, b * s + d * k)
}

// (x,y) with m.
fn turned(m: Amplitude, x: f64, y: f64) -> Amplitude
    ensures { result ≡ Gates.turned m (amplitude x y) }
{
    let re = fused(x, m.re, -y * m.im);
    let im = fused(x, m.im, y * m.re);
    Amplitude { re, im }
}

// s0 with m=(k,-s), s1 with m=(k,s).
fn rz(angle: Angle, a: f64, b: f64, c: f64, d: f64) -> Pair
    ensures { result ≡ rz_rule angle (Gates.becomes (a, b) (c, d)) }
{
    let k = angle.cosine;
    let s = angle.sine;
    let s0 = turned(Amplitude { re: k, im: -s }, a, b);
    let s1 = turned(Amplitude { re: k, im: s }, c, d);
    Pair { s0, s1 }
}

// The eight numbers make p; q, r; u, v; e, f.
fn u(angles: Angles, a: f64, b: f64, c: f64, d: f64) -> Pair
    ensures { result ≡ u_rule (u_matrix angles) (Gates.becomes (a, b) (c, d)) }
{
    let p = angles.ct;
    let q = -angles.cl * angles.st;
    let r = -angles.sl * angles.st;
    let u = angles.cp * angles.st;
    let v = angles.sp * angles.st;
    let e = angles.cpl * angles.ct;
    let f = angles.spl * angles.ct;
    let x = fused(p, a, fused(q, c, -r * d));
    let y = fused(p, b, fused(q, d, r * c));
    let z = fused(u, a, fused(-v, b, fused(e, c, -f * d)));
    let w = fused(u, b, fused(v, a, fused(e, d, f * c)));
    becomes(x, y, z, w)
}

impl Rule {
    // What the rule makes of a pair. X exchanges s0 and s1.
    pub fn put(self, ab: Amplitude, cd: Amplitude) -> Pair
        ensures { result ≡ rule_of self (pair ab cd) }
    {
        let Amplitude { re: a, im: b } = ab;
        let Amplitude { re: c, im: d } = cd;
        match self {
            Rule::H => h(a, b, c, d),
            Rule::X => becomes(c, d, a, b),
            Rule::Y => becomes(d, -c, -b, a),
            Rule::Z => becomes(a, b, -c, -d),
            Rule::P(angle) => p(angle, a, b, c, d),
            Rule::Rx(angle) => rx(angle, a, b, c, d),
            Rule::Ry(angle) => ry(angle, a, b, c, d),
            Rule::Rz(angle) => rz(angle, a, b, c, d),
            Rule::U(angles) => u(angles, a, b, c, d),
        }
    }

    // How many controls its gate takes.
    pub fn most(self) -> u32
        ensures { result ≡ most_of self }
    {
        match self {
            Rule::X | Rule::P(_) | Rule::Rx(_) | Rule::Ry(_) => ANY,
            Rule::H | Rule::Y | Rule::Rz(_) | Rule::U(_) => 1,
            Rule::Z => 0,
        }
    }

    // The gate's own tests, behind those of its seat: 6 of what it is fed.
    pub fn judge(self) -> Result<(), Refusal>
        ensures { Judges (own_of self) result }
    {
        match self {
            Rule::H | Rule::X | Rule::Y | Rule::Z => Ok(()),
            Rule::P(a) | Rule::Rx(a) | Rule::Ry(a) | Rule::Rz(a) => numbers(&[a.cosine, a.sine]),
            Rule::U(g) => numbers(&[g.ct, g.st, g.cl, g.sl, g.cpl, g.spl, g.cp, g.sp]),
        }
    }
}
