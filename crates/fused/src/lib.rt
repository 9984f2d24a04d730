// IEEE 754's fusedMultiplyAdd on f64. Of operands that are no ordinary numbers the machine's own operations give F; ordinary numbers that are neither large
// nor small go the short way where its two sides meet, and the others are left to terms.
#![tactic(auto)]

ghost use Rattle.std.specs.Prelude.{◌≡◌};
ghost use Rattle.std.specs.Float.{binary64};
ghost use Rattle.numbers.specs.Fused as Def;

// F(x,y,z): xy+z rounded once. Where it is a NaN, it is 01's.
pub fn fused(x: f64, y: f64, z: f64) -> f64
    ensures { result ≡ Def.fused binary64 x y z }
{
    if !operands::is_ordinary(x) {
        return operands::with_one_nan(x * y + z);
    }
    if !operands::is_ordinary(y) {
        return operands::with_one_nan(x * y + z);
    }
    if operands::is_ordinary(z) {
        if short::are_near(x, y, z) {
            let r = short::from_both_sides(x, y, exact::upper(y), z);
            if r.left == r.right {
                return r.left;
            }
        }
        return terms::of_ordinary(x, y, z);
    }
    // A zero z must not be added: it would lose the sign of a product that rounds to zero.
    if operands::is_finite(z) {
        return x * y;
    }
    operands::with_one_nan(z)
}
