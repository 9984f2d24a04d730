// The kernels of gates.rs and measurement.rs. `ones` has a bit set for each control; its Controls is written out, so that `search` proves each wrapper.
ghost use Rattle.book.specs.Calls.{act};
ghost use Rattle.book.specs.Lent.{before, after};
ghost use Rattle.book.specs.State.{controlled};
ghost use Rattle.c_api.specs.Tells.{Tells, eight};

use answers::tell;
use book::{Angle, Angles, Controls, Forced, Gate, Noise};

// s0 and s1 exchanged; any number of controls.
#[unsafe(no_mangle)]
pub extern "C" fn gate_bench_x_apply(
    reals: &mut [f64],
    imags: &mut [f64],
    n: u32,
    target: u32,
    ones: u32,
) -> u32
    ensures { Tells (act n (Gate.X target (controlled ones)) (before reals imags)) result (after reals imags) }
{
    tell(gates::x_apply(reals, imags, n, target, Controls { ones }))
}

// Up to one control.
#[unsafe(no_mangle)]
pub extern "C" fn gate_bench_y_apply(
    reals: &mut [f64],
    imags: &mut [f64],
    n: u32,
    target: u32,
    ones: u32,
) -> u32
    ensures { Tells (act n (Gate.Y target (controlled ones)) (before reals imags)) result (after reals imags) }
{
    tell(gates::y_apply(reals, imags, n, target, Controls { ones }))
}

// No controls.
#[unsafe(no_mangle)]
pub extern "C" fn gate_bench_z_apply(
    reals: &mut [f64],
    imags: &mut [f64],
    n: u32,
    target: u32,
    ones: u32,
) -> u32
    ensures { Tells (act n (Gate.Z target (controlled ones)) (before reals imags)) result (after reals imags) }
{
    tell(gates::z_apply(reals, imags, n, target, Controls { ones }))
}

// Up to one control.
#[unsafe(no_mangle)]
pub extern "C" fn gate_bench_h_apply(
    reals: &mut [f64],
    imags: &mut [f64],
    n: u32,
    target: u32,
    ones: u32,
) -> u32
    ensures { Tells (act n (Gate.H target (controlled ones)) (before reals imags)) result (after reals imags) }
{
    tell(gates::h_apply(reals, imags, n, target, Controls { ones }))
}

// Any number of controls.
#[unsafe(no_mangle)]
pub extern "C" fn gate_bench_p_apply(
    reals: &mut [f64],
    imags: &mut [f64],
    n: u32,
    target: u32,
    ones: u32,
    cosine: f64,
    sine: f64,
) -> u32
    ensures { Tells (act n (Gate.P target (controlled ones) (record { cosine = cosine; sine = sine })) (before reals imags)) result (after reals imags) }
{
    tell(gates::p_apply(
        reals,
        imags,
        n,
        target,
        Controls { ones },
        Angle { cosine, sine },
    ))
}

// The angle is the half angle, here and below. Any number of controls.
#[unsafe(no_mangle)]
pub extern "C" fn gate_bench_rx_apply(
    reals: &mut [f64],
    imags: &mut [f64],
    n: u32,
    target: u32,
    ones: u32,
    cosine: f64,
    sine: f64,
) -> u32
    ensures { Tells (act n (Gate.Rx target (controlled ones) (record { cosine = cosine; sine = sine })) (before reals imags)) result (after reals imags) }
{
    tell(gates::rx_apply(
        reals,
        imags,
        n,
        target,
        Controls { ones },
        Angle { cosine, sine },
    ))
}

// Any number of controls.
#[unsafe(no_mangle)]
pub extern "C" fn gate_bench_ry_apply(
    reals: &mut [f64],
    imags: &mut [f64],
    n: u32,
    target: u32,
    ones: u32,
    cosine: f64,
    sine: f64,
) -> u32
    ensures { Tells (act n (Gate.Ry target (controlled ones) (record { cosine = cosine; sine = sine })) (before reals imags)) result (after reals imags) }
{
    tell(gates::ry_apply(
        reals,
        imags,
        n,
        target,
        Controls { ones },
        Angle { cosine, sine },
    ))
}

// Up to one control.
#[unsafe(no_mangle)]
pub extern "C" fn gate_bench_rz_apply(
    reals: &mut [f64],
    imags: &mut [f64],
    n: u32,
    target: u32,
    ones: u32,
    cosine: f64,
    sine: f64,
) -> u32
    ensures { Tells (act n (Gate.Rz target (controlled ones) (record { cosine = cosine; sine = sine })) (before reals imags)) result (after reals imags) }
{
    tell(gates::rz_apply(
        reals,
        imags,
        n,
        target,
        Controls { ones },
        Angle { cosine, sine },
    ))
}

// The eight numbers of U, in 01's order. Up to one control.
#[unsafe(no_mangle)]
pub extern "C" fn gate_bench_u_apply(
    reals: &mut [f64],
    imags: &mut [f64],
    n: u32,
    target: u32,
    ones: u32,
    ct: f64,
    st: f64,
    cl: f64,
    sl: f64,
    cpl: f64,
    spl: f64,
    cp: f64,
    sp: f64,
) -> u32
    ensures { Tells (act n (Gate.U target (controlled ones) (eight ct st cl sl cpl spl cp sp)) (before reals imags)) result (after reals imags) }
{
    tell(gates::u_apply(
        reals,
        imags,
        n,
        target,
        Controls { ones },
        Angles {
            ct,
            st,
            cl,
            sl,
            cpl,
            spl,
            cp,
            sp,
        },
    ))
}

// The qubits t0 and t1 exchanged.
#[unsafe(no_mangle)]
pub extern "C" fn gate_bench_swap_apply(
    reals: &mut [f64],
    imags: &mut [f64],
    n: u32,
    t0: u32,
    t1: u32,
) -> u32
    ensures { Tells (act n (Gate.Swap t0 t1) (before reals imags)) result (after reals imags) }
{
    tell(gates::swap_apply(reals, imags, n, t0, t1))
}

// X if draw <= prob, else nothing; the value is 1 if X ran.
#[unsafe(no_mangle)]
pub extern "C" fn gate_bench_bit_flip_noise_apply(
    reals: &mut [f64],
    imags: &mut [f64],
    n: u32,
    target: u32,
    prob: f64,
    draw: f64,
) -> u32
    ensures { Tells (act n (Gate.BitFlip target (record { prob = prob; draw = draw })) (before reals imags)) result (after reals imags) }
{
    tell(gates::bit_flip_noise_apply(reals, imags, n, target, Noise { prob, draw }))
}

// A forced measurement; the value is the outcome.
#[unsafe(no_mangle)]
pub extern "C" fn gate_bench_measure_qubit(
    reals: &mut [f64],
    imags: &mut [f64],
    n: u32,
    target: u32,
    outcome: u8,
    reset: u8,
) -> u32
    ensures { Tells (act n (Gate.Measure target (record { outcome = outcome; reset = reset })) (before reals imags)) result (after reals imags) }
{
    tell(measurement::measure_qubit(reals, imags, n, target, Forced { outcome, reset }))
}
