// The slow engine's calls: a gate from input buffers into separate output buffers of the same length, with the kernel's refusals. The outputs' lengths are
// tested with the inputs'. SWAP and the bit flip are passed on, and there is none for measuring.
// Stays: a call for each gate, as in gates.
#![tactic(auto)]

ghost use Rattle.book.specs.Answers.{Does};
ghost use Rattle.book.specs.Lent.{before, after, shown};
ghost use Rattle.book.specs.declared.Gate.TheVariants as Gate;
ghost use Rattle.into.specs.Into.{into};

use book::{Angle, Angles, Answer, Controls};
use slow_pairs::on_pairs;
use slow_rules::Rule;
pub use slow_swaps::{bit_flip_noise_apply, swap_apply};

// Up to one control.
pub fn h_apply(
    sr: &[f64],
    si: &[f64],
    reals: &mut [f64],
    imags: &mut [f64],
    n: u32,
    target: u32,
    controls: Controls,
) -> Answer
    ensures { Does (into n (Gate.H target controls) (shown sr si) (before reals imags)) result (after reals imags) }
{
    on_pairs(sr, si, reals, imags, n, target, controls, Rule::H)
}

// s0 and s1 exchanged, with any number of controls.
pub fn x_apply(
    sr: &[f64],
    si: &[f64],
    reals: &mut [f64],
    imags: &mut [f64],
    n: u32,
    target: u32,
    controls: Controls,
) -> Answer
    ensures { Does (into n (Gate.X target controls) (shown sr si) (before reals imags)) result (after reals imags) }
{
    on_pairs(sr, si, reals, imags, n, target, controls, Rule::X)
}

// Up to one control.
pub fn y_apply(
    sr: &[f64],
    si: &[f64],
    reals: &mut [f64],
    imags: &mut [f64],
    n: u32,
    target: u32,
    controls: Controls,
) -> Answer
    ensures { Does (into n (Gate.Y target controls) (shown sr si) (before reals imags)) result (after reals imags) }
{
    on_pairs(sr, si, reals, imags, n, target, controls, Rule::Y)
}

// No controls.
pub fn z_apply(
    sr: &[f64],
    si: &[f64],
    reals: &mut [f64],
    imags: &mut [f64],
    n: u32,
    target: u32,
    controls: Controls,
) -> Answer
    ensures { Does (into n (Gate.Z target controls) (shown sr si) (before reals imags)) result (after reals imags) }
{
    on_pairs(sr, si, reals, imags, n, target, controls, Rule::Z)
}

// Any number of controls.
pub fn p_apply(
    sr: &[f64],
    si: &[f64],
    reals: &mut [f64],
    imags: &mut [f64],
    n: u32,
    target: u32,
    controls: Controls,
    angle: Angle,
) -> Answer
    ensures { Does (into n (Gate.P target controls angle) (shown sr si) (before reals imags)) result (after reals imags) }
{
    on_pairs(sr, si, reals, imags, n, target, controls, Rule::P(angle))
}

// The angle is the half angle, here and below. Any number of controls.
pub fn rx_apply(
    sr: &[f64],
    si: &[f64],
    reals: &mut [f64],
    imags: &mut [f64],
    n: u32,
    target: u32,
    controls: Controls,
    angle: Angle,
) -> Answer
    ensures { Does (into n (Gate.Rx target controls angle) (shown sr si) (before reals imags)) result (after reals imags) }
{
    on_pairs(sr, si, reals, imags, n, target, controls, Rule::Rx(angle))
}

// Any number of controls.
pub fn ry_apply(
    sr: &[f64],
    si: &[f64],
    reals: &mut [f64],
    imags: &mut [f64],
    n: u32,
    target: u32,
    controls: Controls,
    angle: Angle,
) -> Answer
    ensures { Does (into n (Gate.Ry target controls angle) (shown sr si) (before reals imags)) result (after reals imags) }
{
    on_pairs(sr, si, reals, imags, n, target, controls, Rule::Ry(angle))
}

// Up to one control.
pub fn rz_apply(
    sr: &[f64],
    si: &[f64],
    reals: &mut [f64],
    imags: &mut [f64],
    n: u32,
    target: u32,
    controls: Controls,
    angle: Angle,
) -> Answer
    ensures { Does (into n (Gate.Rz target controls angle) (shown sr si) (before reals imags)) result (after reals imags) }
{
    on_pairs(sr, si, reals, imags, n, target, controls, Rule::Rz(angle))
}

// Up to one control.
pub fn u_apply(
    sr: &[f64],
    si: &[f64],
    reals: &mut [f64],
    imags: &mut [f64],
    n: u32,
    target: u32,
    controls: Controls,
    angles: Angles,
) -> Answer
    ensures { Does (into n (Gate.U target controls angles) (shown sr si) (before reals imags)) result (after reals imags) }
{
    on_pairs(sr, si, reals, imags, n, target, controls, Rule::U(angles))
}
