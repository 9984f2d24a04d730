// SWAP and the bit flip by the slow engine: judged, then every index of the outputs.
// Stays: two buffers side by side, at each function: as C lends them.
#![tactic(auto)]

ghost use Rattle.std.specs.Prelude.{◌≡◌, ◌++◌, length};
ghost use Rattle.book.specs.Answers.{Does};
ghost use Rattle.book.specs.Lent.{before, after, shown};
ghost use Rattle.book.specs.declared.Gate.TheVariants as Gate;
ghost use Rattle.into.specs.Into.{into_tests, into};
ghost use Rattle.seated.specs.Judging.{Judges, free_tests};

use book::{Answer, Controls, Noise, Refusal};
use judging::{free_seat, numbers, size};
use slow::{fill, fill_pairs, place_of_swap};
use slow_rules::Rule;

// Tests 1 to 3: the size of the outputs, and then the inputs' with a qubit.
fn judge(
    sr: &[f64],
    si: &[f64],
    reals: &[f64],
    imags: &[f64],
    n: u32,
    target: u32,
) -> Result<(), Refusal>
    ensures { Judges (into_tests n (shown sr si) (shown reals imags) ++ free_tests n target) result }
{
    let outputs = size(reals, imags, n);
    let inputs = free_seat(sr, si, n, target);
    outputs.and(inputs)
}

// Amplitudes exchanged whose indices differ by exchanging the bits t0 and t1; a qubit with itself changes nothing. Both are judged by the higher.
pub fn swap_apply(
    sr: &[f64],
    si: &[f64],
    reals: &mut [f64],
    imags: &mut [f64],
    n: u32,
    t0: u32,
    t1: u32,
) -> Answer
    ensures { Does (into n (Gate.Swap t0 t1) (shown sr si) (before reals imags)) result (after reals imags) }
{
    judge(sr, si, reals, imags, n, t0.max(t1))?;
    let place = |i| place_of_swap(t0, t1, sr, si, i);
    fill(place, n, reals, imags);
    Ok(None)
}

// A part of the inputs. Stays: a loop: `copy_from_slice` is C's memmove, which the archive would need from outside.
fn copy(from: &[f64], to: &mut [f64])
    requires { length from.now ≡ length to.old }
    ensures { to.new ≡ from.now }
{
    for i in 0..to.len() {
        to[i] = from[i];
    }
}

// X without controls if draw <= prob, else nothing, and the outputs are the inputs; the answer is 1 if X ran, 0 if not.
pub fn bit_flip_noise_apply(
    sr: &[f64],
    si: &[f64],
    reals: &mut [f64],
    imags: &mut [f64],
    n: u32,
    target: u32,
    noise: Noise,
) -> Answer
    ensures { Does (into n (Gate.BitFlip target noise) (shown sr si) (before reals imags)) result (after reals imags) }
{
    judge(sr, si, reals, imags, n, target)?;
    numbers(&[noise.prob, noise.draw])?;
    if noise.draw <= noise.prob {
        fill_pairs(Rule::X, n, target, Controls::of(0), sr, si, reals, imags);
        return Ok(Some(1));
    }
    copy(sr, reals);
    copy(si, imags);
    Ok(Some(0))
}
