// IEEE 754's fusedMultiplyAdd on f64 where the numbers are neither large nor small: in the machine's own sums and products.
//
// The product's error e (Dekker) and the error t of its sum s with z (Knuth) are floats. What s lacks is t + e, and v is that rounded: off by less than a
// hair of s. So F lies between s + (v - hair) and s + (v + hair), each rounded once. Where these two are one number, that is F (Ziv); where they are not,
// F lies beside the middle of two numbers, and the long way decides.
// An inner room: its callers test their numbers first, several at a time, and split a multiplier once for many products.
#![tactic(auto)]

ghost use Rattle.std.specs.Prelude.{◌≡◌, true, not, T};
ghost use Rattle.std.specs.Float.{binary64};
ghost use Rattle.std.specs.Float.Ieee.{is_nan};
ghost use Rattle.numbers.specs.Fused as Def;
ghost use Rattle.operands.specs.Operands.{ordinary};
ghost use Rattle.exact.specs.Window.{reach};
ghost use Rattle.exact.specs.Steps.{Near, Under, Halved};
ghost use Rattle.short.specs.Steps.{Modest, Block, Meet};

// 256 exponents, in the bits. Without the sign, the bits of a number from 2^-255 to 2 are 3 blocks and some; of one from 2 to 2^257, 4 and some.
const BLOCK: u64 = 0x1000_0000_0000_0000;

// How many blocks x lies above 2^-255: none up to 2, 1 up to 2^257. What is smaller comes last, from 5 on.
fn apart(x: f64) -> u64
    requires { T (not (is_nan x)) }
    ensures { Block binary64 x result }
{
    (f64::to_bits(x) / BLOCK + 5) % 8
}

// Whether the factors x and y are neither large nor small, and z is not large.
pub fn are_near(x: f64, y: f64, z: f64) -> bool
    requires { T (ordinary x) × T (ordinary y) × T (ordinary z) }
    ensures { result ≡ true → Near binary64 x × Near binary64 y × Under binary64 (reach binary64) z }
{
    if apart(x) >= 2 {
        return false;
    }
    if apart(y) >= 2 {
        return false;
    }
    (apart(z) + 3) % 8 < 5
}

// Whether k is from 2^-255 to 2 in size, and s 2 at most. A NaN among them makes a NaN.
pub fn are_fit(k: f64, s: f64) -> bool
    ensures { result ≡ true → Near binary64 k × Under binary64 1 s }
{
    let w = k + s;
    if w.is_nan() {
        return false;
    }
    apart(k) + (apart(s) + 3) % 8 / 4 == 0
}

// Whether all four are from 2^-255 to 2 in size: in one sum, so that the compiler can test two at once.
pub fn all_modest(a: f64, b: f64, c: f64, d: f64) -> bool
    ensures { result ≡ true → Modest binary64 a × Modest binary64 b × Modest binary64 c × Modest binary64 d }
{
    let w = (a + c) + (b + d);
    if w.is_nan() {
        return false;
    }
    apart(a) + apart(b) + apart(c) + apart(d) == 0
}

// 2^-98: what v may be off by, and what the sums with a hair may lose, are together less than this part of s.
const HAIR: f64 = 3.1554436208840472e-30;

// Two numbers with F between them, or F twice.
#[derive(Clone, Copy)]
pub struct Sides {
    pub left: f64,
    pub right: f64,
}

// F(x,y,z) from both sides, h being y's upper part. Whatever z is there are two numbers; they tell of F where z is not large.
pub fn from_both_sides(x: f64, y: f64, h: f64, z: f64) -> Sides
    requires { Near binary64 x × Halved binary64 y h }
    ensures { Meet result → Under binary64 (reach binary64) z → result.left ≡ Def.fused binary64 x y z }
{
    let e = exact::product_error(x, y, h);
    let p = x * y;
    let s = p + z;
    let v = exact::sum_error(p, z, s) + e;
    let hair = s * HAIR;
    Sides {
        left: s + (v - hair),
        right: s + (v + hair),
    }
}

// Whether all four meet: with no branch, so that the compiler compares two at once, and works nothing out behind a test.
pub fn all_meet(a: Sides, b: Sides, c: Sides, d: Sides) -> bool
    ensures { result ≡ true → Meet a × Meet b × Meet c × Meet d }
{
    (a.left == a.right) & (b.left == b.right) & (c.left == c.right) & (d.left == d.right)
}
