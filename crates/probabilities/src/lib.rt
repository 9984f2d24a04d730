// The probability of an outcome: the squares of its half, summed by rising index.
// An inner room: its one caller, measurement, is proved to have judged the seat that the sums ask.
#![tactic(auto)]

ghost use Rattle.std.specs.Prelude.{◌≡◌, ◌-◌, ◌<◌, ◌^◌};
ghost use Rattle.book.specs.Lent.{shown, shown_here};
ghost use Rattle.book.specs.Measuring.{summed, probability};
ghost use Rattle.book.specs.State.{at, uncontrolled};
ghost use Rattle.seated.specs.Judging.{Seated};
ghost use Rattle.probabilities.specs.Stretches.{Stretch, added};

// The squares of a stretch of places, added to the sum so far.
// Stays: a stretch by its ends: C lends two buffers, and of two parts of them it would have to be said that they lie at one place (`Stretch`).
fn add_squares(reals: &[f64], imags: &[f64], from: usize, to: usize, start: f64) -> f64
    requires { Stretch from to (shown_here reals imags) }
    ensures { result ≡ added (at (shown reals imags)) from start (to - from) }
{
    let mut sum = start;
    for (x, y) in reals[from..to].iter().zip(&imags[from..to]) {
        sum = sum + (x * x + y * y);
    }
    sum
}

// The half whose target bit is the outcome: one stretch of each block.
fn sum_half(reals: &[f64], imags: &[f64], n: u32, target: u32, outcome: u8) -> f64
    requires { Seated n target uncontrolled (shown_here reals imags) × (outcome < 2) }
    ensures { result ≡ summed target outcome (at (shown reals imags)) (2 ^ n) }
{
    let size: usize = 1 << n;
    let bit: usize = 1 << target;
    let offset = (outcome as usize) << target;
    let mut sum = 0.0;
    for base in (0..size).step_by(bit + bit) {
        let from = base + offset;
        sum = add_squares(reals, imags, from, from + bit, sum);
    }
    sum
}

// p0 or p1. No place has another bit, so that another outcome's sum stays 0.0.
#[tactic(auto, unfolding(book::specs::Measuring::probability))]
pub fn chance(reals: &[f64], imags: &[f64], n: u32, target: u32, outcome: u8) -> f64
    requires { Seated n target uncontrolled (shown_here reals imags) }
    ensures { result ≡ probability n target outcome (at (shown reals imags)) }
{
    if outcome < 2 {
        return sum_half(reals, imags, n, target, outcome);
    }
    0.0
}
