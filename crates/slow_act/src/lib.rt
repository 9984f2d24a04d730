// A gate by the slow engine, in place: into a second state, and from there back over the first. So a session may be run by it.
// Stays: two buffers side by side, at each function: as C lends them.
#![tactic(auto)]

ghost use Rattle.std.specs.Prelude.{◌&&◌, ◌≡◌};
ghost use Rattle.book.specs.Calls.{act};
ghost use Rattle.book.specs.Answers.{outcome_of, Does};
ghost use Rattle.book.specs.Lent.{before, after, here, shown, SameSize};
ghost use Rattle.into.specs.Into.{into_tests};
ghost use Rattle.slow_act.specs.Runs.{asked_of, can, call_for, has_room, Runs};

use book::{Answer, Controls, Gate, Noise};
use slow_pairs::on_pairs;
use slow_rules::Rule;
use slow_swaps::{bit_flip_noise_apply, swap_apply};

// The second state has room for 11 qubits, which are the most in the program.
const MOST_PLACES: usize = 2048;

// A gate as the slow engine is asked for it: a rule at a target with its controls, SWAP, or a bit flip.
#[derive(Clone, Copy)]
pub enum Asked {
    Pairs(u8, Controls, Rule),
    Swap(u8, u8),
    Flip(u8, Noise),
}

// It has no call for measuring.
fn ask(gate: Gate) -> Option<Asked>
    ensures { result ≡ asked_of gate }
{
    match gate {
        Gate::H(t, c) => Some(Asked::Pairs(t, c, Rule::H)),
        Gate::X(t, c) => Some(Asked::Pairs(t, c, Rule::X)),
        Gate::Y(t, c) => Some(Asked::Pairs(t, c, Rule::Y)),
        Gate::Z(t, c) => Some(Asked::Pairs(t, c, Rule::Z)),
        Gate::P(t, c, angle) => Some(Asked::Pairs(t, c, Rule::P(angle))),
        Gate::Rx(t, c, angle) => Some(Asked::Pairs(t, c, Rule::Rx(angle))),
        Gate::Ry(t, c, angle) => Some(Asked::Pairs(t, c, Rule::Ry(angle))),
        Gate::Rz(t, c, angle) => Some(Asked::Pairs(t, c, Rule::Rz(angle))),
        Gate::U(t, c, angles) => Some(Asked::Pairs(t, c, Rule::U(angles))),
        Gate::Swap(t, u) => Some(Asked::Swap(t, u)),
        Gate::Measure(_, _) => None,
        Gate::BitFlip(t, noise) => Some(Asked::Flip(t, noise)),
    }
}

// Into the second state.
fn act_into(
    n: u32,
    asked: Asked,
    sr: &[f64],
    si: &[f64],
    reals: &mut [f64],
    imags: &mut [f64],
) -> Answer
    ensures { Does (outcome_of (into_tests n (shown sr si) (before reals imags)) (before reals imags) (call_for asked n (shown sr si)))
        result (after reals imags) }
{
    match asked {
        Asked::Pairs(t, c, rule) => on_pairs(sr, si, reals, imags, n, u32::from(t), c, rule),
        Asked::Swap(t, u) => swap_apply(sr, si, reals, imags, n, u32::from(t), u32::from(u)),
        Asked::Flip(t, noise) => {
            bit_flip_noise_apply(sr, si, reals, imags, n, u32::from(t), noise)
        }
    }
}

// In place of the first state, with room for the second.
fn act_over(
    n: u32,
    gate: Gate,
    reals: &mut [f64],
    imags: &mut [f64],
    outr: &mut [f64],
    outi: &mut [f64],
) -> Option<Answer>
    requires { SameSize (here reals imags) (here outr outi) }
    ensures { Runs (can (asked_of gate)) (act n gate (before reals imags)) (before reals imags) result (after reals imags) }
{
    let answer = act_into(n, ask(gate)?, reals, imags, outr, outi);
    if answer.is_ok() {
        reals.copy_from_slice(outr);
        imags.copy_from_slice(outi);
    }
    Some(answer)
}

// A gate on a lent state, by the slow engine where it can be: none where it has no call for the gate, or no room for the state.
pub fn act_slowly(n: u32, gate: Gate, reals: &mut [f64], imags: &mut [f64]) -> Option<Answer>
    ensures { Runs (can (asked_of gate) && has_room (before reals imags)) (act n gate (before reals imags)) (before reals imags) result
        (after reals imags) }
{
    let mut outr = [0.0; MOST_PLACES];
    let mut outi = [0.0; MOST_PLACES];
    let many = reals.len();
    let more = imags.len();
    if MOST_PLACES < many || MOST_PLACES < more {
        return None;
    }
    act_over(n, gate, reals, imags, &mut outr[..many], &mut outi[..more])
}
