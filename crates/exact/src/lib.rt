// What a product and a sum lose, exactly: in the machine's own sums and products, none of which loses anything itself.
// An inner room: its functions ask for numbers in the window, and their callers are proved.
#![tactic(auto)]

ghost use Rattle.std.specs.Prelude.{◌≡◌};
ghost use Rattle.std.specs.Float.{binary64};
ghost use Rattle.exact.specs.Steps.{Near, Halved, Multiplied, lost};

// A significand's upper part is a multiple of PLACE.
const PLACE: u64 = 0x0800_0000;

const HALF_PLACE: u64 = 0x0400_0000;

// The multiple of PLACE that is nearest to x's significand, with x's sign and exponent.
pub fn upper(x: f64) -> f64
    requires { Near binary64 x }
    ensures { Halved binary64 x result }
{
    f64::from_bits((f64::to_bits(x) + HALF_PLACE) / PLACE * PLACE)
}

// The error of x * y (Dekker), yh being y's upper part: each product of the parts is exact, and so is each sum.
pub fn product_error(x: f64, y: f64, yh: f64) -> f64
    requires { Near binary64 x × Halved binary64 y yh }
    ensures { Multiplied binary64 x y result }
{
    let xh = upper(x);
    let xl = x - xh;
    let yl = y - yh;
    xh * yh - x * y + xh * yl + xl * yh + xl * yl
}

// The error of s, which is a + b (Knuth), whichever of the two is larger.
pub fn sum_error(a: f64, b: f64, s: f64) -> f64
    ensures { result ≡ lost binary64 a b s }
{
    let d = s - a;
    (a - (s - d)) + (b - d)
}
