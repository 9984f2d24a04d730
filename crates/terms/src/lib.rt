// F of three ordinary numbers, in whole numbers: two of them are multiplied exactly, into 128 digits, and the third is added in one unit, where digits
// that cannot count are cut off (sum). The answer is rounded and packed once, by rounding::pack.
#![tactic(auto)]

mod sum;

ghost use Rattle.std.specs.Prelude.{◌≡◌};
ghost use Rattle.std.specs.Float.{binary64};
ghost use Rattle.terms.specs.Terms.{of_ordinary};

// F(x,y,z) where all three are ordinary numbers. Where one is not, this is +0.
pub fn of_ordinary(x: f64, y: f64, z: f64) -> f64
    ensures { result ≡ of_ordinary binary64 x y z }
{
    let Some(a) = operands::unpack(x) else {
        return 0.0;
    };
    let Some(b) = operands::unpack(y) else {
        return 0.0;
    };
    let Some(c) = operands::unpack(z) else {
        return 0.0;
    };
    sum::multiply_add(a, b, c)
}
