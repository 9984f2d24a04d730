// What a gate does to a state of n qubits, by either engine. The kernel of each code has a line.
#![tactic(auto)]

ghost use Rattle.book.specs.Answers.{Does};
ghost use Rattle.book.specs.Calls as Book;
ghost use Rattle.book.specs.Lent.{before, after};

use book::{Answer, Gate};
use slow_act::act_slowly;

// What runs a gate. No contract asks which it is: all do the same. Who delivers is generic over it, so the archive, which names Fast, leaves the slow engine
// out, and its second state.
pub trait Engine {
    fn run(n: u32, gate: Gate, reals: &mut [f64], imags: &mut [f64]) -> Answer
        ensures { Does (Book.act n gate (before reals imags)) result (after reals imags) };
}

// By the kernels.
pub struct Fast;

impl Engine for Fast {
    fn run(n: u32, gate: Gate, reals: &mut [f64], imags: &mut [f64]) -> Answer {
        match gate {
            Gate::H(t, c) => gates::h_apply(reals, imags, n, u32::from(t), c),
            Gate::X(t, c) => gates::x_apply(reals, imags, n, u32::from(t), c),
            Gate::Y(t, c) => gates::y_apply(reals, imags, n, u32::from(t), c),
            Gate::Z(t, c) => gates::z_apply(reals, imags, n, u32::from(t), c),
            Gate::P(t, c, angle) => gates::p_apply(reals, imags, n, u32::from(t), c, angle),
            Gate::Rx(t, c, angle) => gates::rx_apply(reals, imags, n, u32::from(t), c, angle),
            Gate::Ry(t, c, angle) => gates::ry_apply(reals, imags, n, u32::from(t), c, angle),
            Gate::Rz(t, c, angle) => gates::rz_apply(reals, imags, n, u32::from(t), c, angle),
            Gate::U(t, c, angles) => gates::u_apply(reals, imags, n, u32::from(t), c, angles),
            Gate::Swap(t, u) => gates::swap_apply(reals, imags, n, u32::from(t), u32::from(u)),
            Gate::Measure(t, forced) => {
                measurement::measure_qubit(reals, imags, n, u32::from(t), forced)
            }
            Gate::BitFlip(t, noise) => {
                gates::bit_flip_noise_apply(reals, imags, n, u32::from(t), noise)
            }
        }
    }
}

// By the slow engine where it can be: measuring has one kernel, and the slow engine has room for 11 qubits.
pub struct Slow;

impl Engine for Slow {
    fn run(n: u32, gate: Gate, reals: &mut [f64], imags: &mut [f64]) -> Answer {
        match act_slowly(n, gate, reals, imags) {
            Some(answer) => answer,
            None => Fast::run(n, gate, reals, imags),
        }
    }
}
