// U's rule. By value, operation for operation as 01 writes it. Where the numbers are near 1 its F stand side by side, behind one test of the numbers and each
// step before one of the sides.
#![tactic(auto)]

ghost use Rattle.std.specs.Prelude.{◌≡◌};
ghost use Rattle.book.specs.Gates.{u_matrix, u_rule};
ghost use Rattle.splits.specs.Splits.{USplit};
ghost use Rattle.splits.specs.Unique.{u_split_prop};

use abreast::lefts;
use angle_rules::u_matrix;
use book::{Amplitude, Angles, Matrix, Pair};
use fused::fused;
use rules::Rule;
use short::{all_meet, all_modest, from_both_sides};
use splits::{Uppers, split};

// U of its eight numbers, with its matrix, made once, and what that is split to.
#[derive(Clone, Copy)]
pub struct U {
    pub angles: Angles,
    matrix: Matrix,
    h: Uppers,
    ghost made: { matrix ≡ u_matrix angles },
    ghost split: { USplit matrix h } by { u_split_prop matrix h },
}

impl U {
    pub fn of(angles: Angles) -> U
        ensures { result.angles ≡ angles }
    {
        let matrix = u_matrix(angles);
        U {
            angles,
            matrix,
            h: split(matrix),
        }
    }
}

// As 01 writes it.
fn u_one_by_one(matrix: Matrix, pair: Pair) -> Pair
    ensures { result ≡ u_rule matrix pair }
{
    let p = matrix.entries[0].re;
    let q = matrix.entries[1].re;
    let r = matrix.entries[1].im;
    let u = matrix.entries[2].re;
    let v = matrix.entries[2].im;
    let e = matrix.entries[3].re;
    let f = matrix.entries[3].im;
    let a = pair.s0.re;
    let b = pair.s0.im;
    let c = pair.s1.re;
    let d = pair.s1.im;
    let s0 = Amplitude {
        re: fused(p, a, fused(q, c, -r * d)),
        im: fused(p, b, fused(q, d, r * c)),
    };
    let s1 = Amplitude {
        re: fused(u, a, fused(-v, b, fused(e, c, -f * d))),
        im: fused(u, b, fused(v, a, fused(e, d, f * c))),
    };
    Pair { s0, s1 }
}

// Ten F in three steps, a step's F side by side: where all their sides meet on to the next, and else one by one. A matrix of which one number is not split
// has no p here.
fn u_rule(gate: U, pair: Pair) -> Pair
    ensures { result ≡ u_rule gate.matrix pair }
{
    let U { matrix, h, .. } = gate;
    let r = matrix.entries[1].im;
    let v = matrix.entries[2].im;
    let e = matrix.entries[3].re;
    let f = matrix.entries[3].im;
    let a = pair.s0.re;
    let b = pair.s0.im;
    let c = pair.s1.re;
    let d = pair.s1.im;
    if h.p != 0.0 && all_modest(a, c, b, d) {
        let q0 = from_both_sides(c, matrix.entries[1].re, h.q, -r * d);
        let q1 = from_both_sides(d, matrix.entries[1].re, h.q, r * c);
        let e0 = from_both_sides(c, e, h.e, -f * d);
        let e1 = from_both_sides(d, e, h.e, f * c);
        if all_meet(q0, q1, e0, e1) {
            let re0 = from_both_sides(a, matrix.entries[0].re, h.p, q0.left);
            let im0 = from_both_sides(b, matrix.entries[0].re, h.p, q1.left);
            let v0 = from_both_sides(b, -v, h.w, e0.left);
            let v1 = from_both_sides(a, v, h.v, e1.left);
            if all_meet(re0, im0, v0, v1) {
                let re1 = from_both_sides(a, matrix.entries[2].re, h.u, v0.left);
                let im1 = from_both_sides(b, matrix.entries[2].re, h.u, v1.left);
                if all_meet(re1, re1, im1, im1) {
                    return lefts(re0, im0, re1, im1);
                }
            }
        }
    }
    u_one_by_one(matrix, pair)
}

impl Rule for U {
    ghost rule = { λ u. u_rule (u_matrix u.angles) };

    const NEEDS_F: bool = true;

    fn put(self, p: Pair) -> Pair {
        u_rule(self, p)
    }
}
