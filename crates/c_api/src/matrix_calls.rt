// The calls of unitaries.rs: matrices of side 2^n, n from 1 to 6.
ghost use Rattle.book.specs.Lent.{before, after, shown};
ghost use Rattle.book.specs.Matrices.{gate_matrix, conjugate_transpose, product, product_state};
ghost use Rattle.c_api.specs.Tells.{Tells, four_entries};

use answers::tell;
use book::{Amplitude, Matrix};

// The matrix of a gate on the target, from the gate's own four entries, row by row.
#[unsafe(no_mangle)]
pub extern "C" fn gate_bench_from_single_qubit_gate(
    reals: &mut [f64],
    imags: &mut [f64],
    n: u32,
    target: u32,
    re00: f64,
    im00: f64,
    re01: f64,
    im01: f64,
    re10: f64,
    im10: f64,
    re11: f64,
    im11: f64,
) -> u32
    ensures { Tells (gate_matrix (four_entries re00 im00 re01 im01 re10 im10 re11 im11) n target (before reals imags)) result (after reals imags) }
{
    tell(unitaries::from_single_qubit_gate(
        reals,
        imags,
        n,
        target,
        Matrix {
            entries: [
                Amplitude { re: re00, im: im00 },
                Amplitude { re: re01, im: im01 },
                Amplitude { re: re10, im: im10 },
                Amplitude { re: re11, im: im11 },
            ],
        },
    ))
}

// Conjugate transpose, in place.
#[unsafe(no_mangle)]
pub extern "C" fn gate_bench_conj_t(reals: &mut [f64], imags: &mut [f64], n: u32) -> u32
    ensures { Tells (conjugate_transpose n (before reals imags)) result (after reals imags) }
{
    tell(unitaries::conj_t(reals, imags, n))
}

// A times B, into separate buffers.
#[unsafe(no_mangle)]
pub extern "C" fn gate_bench_multiply(
    ar: &[f64],
    ai: &[f64],
    br: &[f64],
    bi: &[f64],
    reals: &mut [f64],
    imags: &mut [f64],
    n: u32,
) -> u32
    ensures { Tells (product n (shown ar ai) (shown br bi) (before reals imags)) result (after reals imags) }
{
    tell(unitaries::multiply(ar, ai, br, bi, reals, imags, n))
}

// A times a state, into separate buffers.
#[unsafe(no_mangle)]
pub extern "C" fn gate_bench_apply_unitary(
    ar: &[f64],
    ai: &[f64],
    sr: &[f64],
    si: &[f64],
    reals: &mut [f64],
    imags: &mut [f64],
    n: u32,
) -> u32
    ensures { Tells (product_state n (shown ar ai) (shown sr si) (before reals imags)) result (after reals imags) }
{
    tell(unitaries::apply_unitary(ar, ai, sr, si, reals, imags, n))
}
