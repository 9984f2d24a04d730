// The call of a case, and whether it leaves what is wanted, bit for bit.
ghost use Rattle.std.specs.Prelude.{◌<◌};

use crate::case::{Head, Kind, Verdict};
use crate::floats::{Floats, Part, differ};
use crate::record::deliver;
use book::{Amplitude, Answer, Matrix};
use std::io;
use std::io::Read;
use unitaries::{apply_unitary, conj_t, from_single_qubit_gate, multiply};

// An entry of a gate's own matrix.
fn entry(part: &Part, i: usize) -> Amplitude
    requires { i < 4 }
{
    Amplitude {
        re: part.reals[i],
        im: part.imags[i],
    }
}

fn matrix_of(part: &Part) -> Matrix {
    Matrix {
        entries: [
            entry(part, 0),
            entry(part, 1),
            entry(part, 2),
            entry(part, 3),
        ],
    }
}

// A matrix call. A transposition changes the second operand, which stands in reals and imags; the others write over it.
fn call(head: Head, floats: &Floats, reals: &mut [f64], imags: &mut [f64]) -> Answer {
    let n = u32::from(head.n);
    let (a, b) = (&floats.first, &floats.second);
    match head.kind {
        Kind::GateMatrix => {
            let matrix = matrix_of(a);
            from_single_qubit_gate(reals, imags, n, u32::from(head.given), matrix)
        }
        Kind::Product => multiply(a.re(), a.im(), b.re(), b.im(), reals, imags, n),
        Kind::StateProduct => apply_unitary(a.re(), a.im(), b.re(), b.im(), reals, imags, n),
        Kind::Transpose | Kind::Record => conj_t(reals, imags, n),
    }
}

fn taken(answer: Answer) -> bool {
    match answer {
        Ok(None) => true,
        _ => false,
    }
}

// Stays: two buffers side by side, at each function: as C lends them.
// Whether the call answers as it should; none where a record cannot be read.
fn answers<R: Read>(
    input: &mut R,
    head: Head,
    floats: &Floats,
    reals: &mut [f64],
    imags: &mut [f64],
) -> io::Result<Option<bool>> {
    match head.kind {
        Kind::Record => deliver(input, head, reals, imags),
        _ => Ok(Some(taken(call(head, floats, reals, imags)))),
    }
}

pub(crate) fn run_case<R: Read>(input: &mut R, head: Head, floats: &Floats) -> io::Result<Verdict> {
    let Part {
        mut reals,
        mut imags,
        count,
    } = floats.second;
    let (re, im) = (&mut reals[..count], &mut imags[..count]);
    let Some(right) = answers(input, head, floats, re, im)? else {
        return Ok(Verdict::Unread);
    };
    let wanted = &floats.wanted;
    if !right || differ(&reals[..count], wanted.re()) || differ(&imags[..count], wanted.im()) {
        return Ok(Verdict::Different);
    }
    Ok(Verdict::Same)
}
