// What U multiplies with, split once for all pairs.
#![tactic(auto)]

ghost use Rattle.std.specs.Prelude.{true, ◌≡◌};
ghost use Rattle.splits.specs.Splits.{some, AllThere, USplit};

use abreast::{upper, upper_beside};
use book::Matrix;

// The upper parts of U's p, q, u, v, w = -v and e.
#[derive(Clone, Copy)]
pub struct Uppers {
    pub p: f64,
    pub q: f64,
    pub u: f64,
    pub v: f64,
    pub w: f64,
    pub e: f64,
}

// They are there together or not at all: without one of them p's is 0.
fn with_all(p: f64, q: f64, u: f64, v: f64, w: f64, e: f64) -> f64
    ensures { some result ≡ true → AllThere p q u v w e result }
{
    if q == 0.0 || u == 0.0 || v == 0.0 || w == 0.0 || e == 0.0 {
        return 0.0;
    }
    p
}

pub fn split(matrix: Matrix) -> Uppers
    ensures { USplit matrix result }
{
    let r = matrix.entries[1].im;
    let f = matrix.entries[3].im;
    let q = upper_beside(matrix.entries[1].re, matrix.entries[1].re);
    let u = upper_beside(matrix.entries[2].re, r);
    let v = upper_beside(matrix.entries[2].im, matrix.entries[2].im);
    let w = upper_beside(-matrix.entries[2].im, f);
    let e = upper_beside(matrix.entries[3].re, matrix.entries[3].re);
    let p = with_all(upper(matrix.entries[0].re), q, u, v, w, e);
    Uppers { p, q, u, v, w, e }
}
