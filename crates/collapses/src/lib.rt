// The chosen half is multiplied by r, and the other half becomes +0.0, block by block.
// An inner room: its one caller, measurement, is proved to have judged the seat that is asked.
#![tactic(auto)]

ghost use Rattle.std.specs.Prelude.{◌≡◌, ◌^◌};
ghost use Rattle.book.specs.Lent.{before, after, here};
ghost use Rattle.book.specs.Measuring.{collapsed};
ghost use Rattle.book.specs.State.{at, held, uncontrolled};
ghost use Rattle.probabilities.specs.Stretches.{Stretch};
ghost use Rattle.collapses.specs.Halves.{scaled, cleared, half_of, Remade};
ghost use Rattle.seated.specs.Judging.{Seated};

// A stretch of the chosen half. Both buffers in one loop: a half of few places would cost more in two.
// Stays: a stretch by its ends, here and below: C lends two buffers, and of two parts of them it would have to be said that they lie at one place (`Stretch`).
fn scale_part(reals: &mut [f64], imags: &mut [f64], from: usize, to: usize, r: f64)
    requires { Stretch from to (here reals imags) }
    ensures { Remade (λ i. scaled r) from to (before reals imags) (after reals imags) }
{
    for i in from..to {
        reals[i] = reals[i] * r;
        imags[i] = imags[i] * r;
    }
}

// A stretch of the other half.
fn clear_part(reals: &mut [f64], imags: &mut [f64], from: usize, to: usize)
    requires { Stretch from to (here reals imags) }
    ensures { Remade (λ i. cleared) from to (before reals imags) (after reals imags) }
{
    for i in from..to {
        reals[i] = 0.0;
        imags[i] = 0.0;
    }
}

fn collapse_half(reals: &mut [f64], imags: &mut [f64], from: usize, to: usize, chosen: bool, r: f64)
    requires { Stretch from to (here reals imags) }
    ensures { Remade (λ i. half_of chosen r) from to (before reals imags) (after reals imags) }
{
    if chosen {
        scale_part(reals, imags, from, to, r);
    } else {
        clear_part(reals, imags, from, to);
    }
}

pub fn collapse(reals: &mut [f64], imags: &mut [f64], n: u32, target: u32, outcome: u8, r: f64)
    requires { Seated n target uncontrolled (here reals imags) }
    ensures { after reals imags ≡ held (2 ^ n) (collapsed target outcome r (at (before reals imags))) }
{
    let size: usize = 1 << n;
    let bit: usize = 1 << target;
    for base in (0..size).step_by(bit + bit) {
        let middle = base + bit;
        collapse_half(reals, imags, base, middle, outcome == 0, r);
        collapse_half(reals, imags, middle, middle + bit, outcome == 1, r);
    }
}
