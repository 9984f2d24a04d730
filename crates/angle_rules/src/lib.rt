// The rules of RX and RY on a pair of amplitudes, by value, operation for operation as 01 writes them; and U's matrix.
#![tactic(auto)]

ghost use Rattle.std.specs.Prelude.{◌≡◌};
ghost use Rattle.book.specs.Gates.{rx_rule, ry_rule, u_matrix};

use book::{Amplitude, Angle, Angles, Matrix, Pair};

// The angle's numbers are those of the half angle, here and below.
pub fn rx_rule(angle: Angle, p: Pair) -> Pair
    ensures { result ≡ rx_rule angle p }
{
    let k = angle.cosine;
    let w = -angle.sine;
    let a = p.s0.re;
    let b = p.s0.im;
    let c = p.s1.re;
    let d = p.s1.im;
    Pair {
        s0: Amplitude {
            re: a * k - d * w,
            im: b * k + c * w,
        },
        s1: Amplitude {
            re: c * k - b * w,
            im: d * k + a * w,
        },
    }
}

pub fn ry_rule(angle: Angle, p: Pair) -> Pair
    ensures { result ≡ ry_rule angle p }
{
    let k = angle.cosine;
    let s = angle.sine;
    let a = p.s0.re;
    let b = p.s0.im;
    let c = p.s1.re;
    let d = p.s1.im;
    Pair {
        s0: Amplitude {
            re: a * k - c * s,
            im: b * k - d * s,
        },
        s1: Amplitude {
            re: a * s + c * k,
            im: b * s + d * k,
        },
    }
}

// U's matrix, made once.
pub fn u_matrix(angles: Angles) -> Matrix
    ensures { result ≡ u_matrix angles }
{
    let p = Amplitude {
        re: angles.ct,
        im: 0.0,
    };
    let qr = Amplitude {
        re: -angles.cl * angles.st,
        im: -angles.sl * angles.st,
    };
    let uv = Amplitude {
        re: angles.cp * angles.st,
        im: angles.sp * angles.st,
    };
    let ef = Amplitude {
        re: angles.cpl * angles.ct,
        im: angles.spl * angles.ct,
    };
    Matrix {
        entries: [p, qr, uv, ef],
    }
}
