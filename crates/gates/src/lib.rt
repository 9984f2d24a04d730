// The kernels of gates.rs over two lent buffers, with 01's refusals. Each call is judged first; then its gate's rule is put to each chosen pair.
// Stays: a call for each gate: docs/PROMISES.md names them, and the archive exports them.
#![tactic(auto)]

ghost use Rattle.book.specs.Answers.{Does};
ghost use Rattle.book.specs.Calls.{act};
ghost use Rattle.book.specs.Lent.{before, after};
ghost use Rattle.book.specs.declared.Gate.TheVariants as Gate;

use book::{Angle, Angles, Answer, Controls, Noise};
use fed::judge;
use fused_rules::{P, Rz};
use rules::{H, Rx, Ry, X, Y, Z};
use swaps::{flip_bit, swap_bits};
use sweeps::{on_pairs, put_chosen};
use u_rules::U;
use uppers::on_uppers;

// s0 and s1 exchanged, with any number of controls.
pub fn x_apply(
    reals: &mut [f64],
    imags: &mut [f64],
    n: u32,
    target: u32,
    controls: Controls,
) -> Answer
    ensures { Does (act n (Gate.X target controls) (before reals imags)) result (after reals imags) }
{
    on_pairs(reals, imags, n, target, controls, X)
}

// Up to one control.
pub fn y_apply(
    reals: &mut [f64],
    imags: &mut [f64],
    n: u32,
    target: u32,
    controls: Controls,
) -> Answer
    ensures { Does (act n (Gate.Y target controls) (before reals imags)) result (after reals imags) }
{
    on_pairs(reals, imags, n, target, controls, Y)
}

// No controls.
pub fn z_apply(
    reals: &mut [f64],
    imags: &mut [f64],
    n: u32,
    target: u32,
    controls: Controls,
) -> Answer
    ensures { Does (act n (Gate.Z target controls) (before reals imags)) result (after reals imags) }
{
    on_uppers(reals, imags, n, target, controls, Z)
}

// Up to one control.
pub fn h_apply(
    reals: &mut [f64],
    imags: &mut [f64],
    n: u32,
    target: u32,
    controls: Controls,
) -> Answer
    ensures { Does (act n (Gate.H target controls) (before reals imags)) result (after reals imags) }
{
    on_pairs(reals, imags, n, target, controls, H)
}

// Any number of controls.
pub fn p_apply(
    reals: &mut [f64],
    imags: &mut [f64],
    n: u32,
    target: u32,
    controls: Controls,
    angle: Angle,
) -> Answer
    ensures { Does (act n (Gate.P target controls angle) (before reals imags)) result (after reals imags) }
{
    on_uppers(reals, imags, n, target, controls, P::of(angle))
}

// The angle is the half angle, here and below. Any number of controls.
pub fn rx_apply(
    reals: &mut [f64],
    imags: &mut [f64],
    n: u32,
    target: u32,
    controls: Controls,
    angle: Angle,
) -> Answer
    ensures { Does (act n (Gate.Rx target controls angle) (before reals imags)) result (after reals imags) }
{
    on_pairs(reals, imags, n, target, controls, Rx(angle))
}

// Any number of controls.
pub fn ry_apply(
    reals: &mut [f64],
    imags: &mut [f64],
    n: u32,
    target: u32,
    controls: Controls,
    angle: Angle,
) -> Answer
    ensures { Does (act n (Gate.Ry target controls angle) (before reals imags)) result (after reals imags) }
{
    on_pairs(reals, imags, n, target, controls, Ry(angle))
}

// Up to one control.
pub fn rz_apply(
    reals: &mut [f64],
    imags: &mut [f64],
    n: u32,
    target: u32,
    controls: Controls,
    angle: Angle,
) -> Answer
    ensures { Does (act n (Gate.Rz target controls angle) (before reals imags)) result (after reals imags) }
{
    on_pairs(reals, imags, n, target, controls, Rz::of(angle))
}

// The eight numbers make the matrix once. Up to one control.
pub fn u_apply(
    reals: &mut [f64],
    imags: &mut [f64],
    n: u32,
    target: u32,
    controls: Controls,
    angles: Angles,
) -> Answer
    ensures { Does (act n (Gate.U target controls angles) (before reals imags)) result (after reals imags) }
{
    judge(reals, imags, n, target, controls, angles)?;
    put_chosen(reals, imags, n, target, controls, U::of(angles));
    Ok(None)
}

// Amplitudes exchanged whose indices differ by exchanging the bits t0 and t1; a qubit with itself changes nothing.
pub fn swap_apply(reals: &mut [f64], imags: &mut [f64], n: u32, t0: u32, t1: u32) -> Answer
    ensures { Does (act n (Gate.Swap t0 t1) (before reals imags)) result (after reals imags) }
{
    swap_bits(reals, imags, n, t0, t1)
}

// X without controls if draw <= prob, else nothing; the answer is 1 if X ran, 0 if not.
pub fn bit_flip_noise_apply(
    reals: &mut [f64],
    imags: &mut [f64],
    n: u32,
    target: u32,
    noise: Noise,
) -> Answer
    ensures { Does (act n (Gate.BitFlip target noise) (before reals imags)) result (after reals imags) }
{
    flip_bit(reals, imags, n, target, noise)
}
