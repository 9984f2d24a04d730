// SWAP and the bit flip: judged, then their pairs exchanged by the sweep of X.
// Stays: two buffers side by side, at each function: as C lends them.
#![tactic(auto)]

ghost use Rattle.std.specs.Prelude.{◌≤◌, ◌<◌, ◌≡◌};
ghost use Rattle.book.specs.Answers.{Does};
ghost use Rattle.book.specs.Calls.{act};
ghost use Rattle.book.specs.Kernels.{swapped};
ghost use Rattle.book.specs.Lent.{before, after, here};
ghost use Rattle.book.specs.State.{uncontrolled};
ghost use Rattle.book.specs.declared.Gate.TheVariants.{Swap, BitFlip};
ghost use Rattle.seated.specs.Judging.{Seated};

use book::{Answer, Controls, Noise};
use forms::sweep;
use rules::X;
use sweeps::put_chosen;

// The places that have both bits are the keys of the pairs to exchange.
fn exchange(reals: &mut [f64], imags: &mut [f64], n: u32, low: u32, high: u32)
    requires { (low < high) × Seated n high uncontrolled (here reals imags) }
    ensures { after reals imags ≡ swapped n low high (before reals imags) }
{
    let bit0: usize = 1 << low;
    let bit1: usize = 1 << high;
    sweep(reals, imags, n, bit0 + bit1, bit1, bit0, X);
}

// SWAP of two qubits of which the first is not the higher.
fn swap_upwards(reals: &mut [f64], imags: &mut [f64], n: u32, low: u32, high: u32) -> Answer
    requires { low ≤ high }
    ensures { Does (act n (Swap low high) (before reals imags)) result (after reals imags) }
{
    judging::free_seat(reals, imags, n, high)?;
    if low == high {
        return Ok(None);
    }
    exchange(reals, imags, n, low, high);
    Ok(None)
}

// Amplitudes exchanged whose indices differ by exchanging the bits t0 and t1; a qubit with itself changes nothing.
pub fn swap_bits(reals: &mut [f64], imags: &mut [f64], n: u32, t0: u32, t1: u32) -> Answer
    ensures { Does (act n (Swap t0 t1) (before reals imags)) result (after reals imags) }
{
    if t1 < t0 {
        return swap_upwards(reals, imags, n, t1, t0);
    }
    swap_upwards(reals, imags, n, t0, t1)
}

// X without controls if draw <= prob, else nothing; the answer is 1 if X ran, 0 if not.
pub fn flip_bit(reals: &mut [f64], imags: &mut [f64], n: u32, target: u32, noise: Noise) -> Answer
    ensures { Does (act n (BitFlip target noise) (before reals imags)) result (after reals imags) }
{
    judging::free_seat(reals, imags, n, target)?;
    judging::numbers(&[noise.prob, noise.draw])?;
    if noise.draw <= noise.prob {
        put_chosen(reals, imags, n, target, Controls::of(0), X);
        return Ok(Some(1));
    }
    Ok(Some(0))
}
