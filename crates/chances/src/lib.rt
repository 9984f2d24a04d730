// What a measurement asks before it touches a buffer: tests 6 and 7, the outcome's probability, which is passed on, and 1 over its root.
#![tactic(auto)]

ghost use Rattle.std.specs.Prelude.{[], ◌∷◌, ◌≡◌};
ghost use Rattle.book.specs.Answers.{◌⇒◌};
ghost use Rattle.book.specs.Measuring.{bad_forced, bad_chance, one_over_root};
ghost use Rattle.seated.specs.Judging.{Judges};

use book::{Forced, Refusal};
use operands::is_finite;
pub use probabilities::chance;

// Outcome or reset is neither 0 nor 1.
pub fn bad_forced(forced: Forced) -> bool
    ensures { result ≡ bad_forced forced }
{
    2 <= forced.outcome || 2 <= forced.reset
}

// NaN, infinite, zero or negative.
pub fn bad_chance(p: f64) -> bool
    ensures { result ≡ bad_chance p }
{
    !(is_finite(p) && 0.0 < p)
}

// Tests 6 and 7, of an outcome that has this probability.
pub fn own(forced: Forced, p: f64) -> Result<(), Refusal>
    ensures { Judges (bad_forced forced ⇒ 6 ∷ bad_chance p ⇒ 7 ∷ []) result }
{
    let neither = bad_forced(forced);
    let unlikely = bad_chance(p);
    if neither {
        return Err(Refusal::Number);
    }
    if unlikely {
        return Err(Refusal::Chance);
    }
    Ok(())
}

// 1/root(p)
pub fn one_over_root(p: f64) -> f64
    ensures { result ≡ one_over_root p }
{
    1.0 / roots::root(p)
}
