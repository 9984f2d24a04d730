// The slow engine's calls: a gate from input buffers into separate output buffers of the same length. `ones` as in kernels.
ghost use Rattle.book.specs.Lent.{before, after, shown};
ghost use Rattle.book.specs.State.{controlled};
ghost use Rattle.into.specs.Into.{into};
ghost use Rattle.c_api.specs.Tells.{Tells, eight};

use answers::tell;
use book::{Angle, Angles, Controls, Gate, Noise};

// s0 and s1 exchanged; any number of controls.
#[unsafe(no_mangle)]
pub extern "C" fn gate_bench_slow_x_apply(
    sr: &[f64],
    si: &[f64],
    reals: &mut [f64],
    imags: &mut [f64],
    n: u32,
    target: u32,
    ones: u32,
) -> u32
    ensures { Tells (into n (Gate.X target (controlled ones)) (shown sr si) (before reals imags)) result
        (after reals imags) }
{
    tell(slow_gates::x_apply(sr, si, reals, imags, n, target, Controls { ones }))
}

// Up to one control.
#[unsafe(no_mangle)]
pub extern "C" fn gate_bench_slow_y_apply(
    sr: &[f64],
    si: &[f64],
    reals: &mut [f64],
    imags: &mut [f64],
    n: u32,
    target: u32,
    ones: u32,
) -> u32
    ensures { Tells (into n (Gate.Y target (controlled ones)) (shown sr si) (before reals imags)) result
        (after reals imags) }
{
    tell(slow_gates::y_apply(sr, si, reals, imags, n, target, Controls { ones }))
}

// No controls.
#[unsafe(no_mangle)]
pub extern "C" fn gate_bench_slow_z_apply(
    sr: &[f64],
    si: &[f64],
    reals: &mut [f64],
    imags: &mut [f64],
    n: u32,
    target: u32,
    ones: u32,
) -> u32
    ensures { Tells (into n (Gate.Z target (controlled ones)) (shown sr si) (before reals imags)) result
        (after reals imags) }
{
    tell(slow_gates::z_apply(sr, si, reals, imags, n, target, Controls { ones }))
}

// Up to one control.
#[unsafe(no_mangle)]
pub extern "C" fn gate_bench_slow_h_apply(
    sr: &[f64],
    si: &[f64],
    reals: &mut [f64],
    imags: &mut [f64],
    n: u32,
    target: u32,
    ones: u32,
) -> u32
    ensures { Tells (into n (Gate.H target (controlled ones)) (shown sr si) (before reals imags)) result
        (after reals imags) }
{
    tell(slow_gates::h_apply(sr, si, reals, imags, n, target, Controls { ones }))
}

// Any number of controls.
#[unsafe(no_mangle)]
pub extern "C" fn gate_bench_slow_p_apply(
    sr: &[f64],
    si: &[f64],
    reals: &mut [f64],
    imags: &mut [f64],
    n: u32,
    target: u32,
    ones: u32,
    cosine: f64,
    sine: f64,
) -> u32
    ensures { Tells (into n (Gate.P target (controlled ones) (record { cosine = cosine; sine = sine })) (shown sr si) (before reals imags)) result
        (after reals imags) }
{
    tell(slow_gates::p_apply(
        sr,
        si,
        reals,
        imags,
        n,
        target,
        Controls { ones },
        Angle { cosine, sine },
    ))
}

// The angle is the half angle, here and below. Any number of controls.
#[unsafe(no_mangle)]
pub extern "C" fn gate_bench_slow_rx_apply(
    sr: &[f64],
    si: &[f64],
    reals: &mut [f64],
    imags: &mut [f64],
    n: u32,
    target: u32,
    ones: u32,
    cosine: f64,
    sine: f64,
) -> u32
    ensures { Tells (into n (Gate.Rx target (controlled ones) (record { cosine = cosine; sine = sine })) (shown sr si) (before reals imags)) result
        (after reals imags) }
{
    tell(slow_gates::rx_apply(
        sr,
        si,
        reals,
        imags,
        n,
        target,
        Controls { ones },
        Angle { cosine, sine },
    ))
}

// Any number of controls.
#[unsafe(no_mangle)]
pub extern "C" fn gate_bench_slow_ry_apply(
    sr: &[f64],
    si: &[f64],
    reals: &mut [f64],
    imags: &mut [f64],
    n: u32,
    target: u32,
    ones: u32,
    cosine: f64,
    sine: f64,
) -> u32
    ensures { Tells (into n (Gate.Ry target (controlled ones) (record { cosine = cosine; sine = sine })) (shown sr si) (before reals imags)) result
        (after reals imags) }
{
    tell(slow_gates::ry_apply(
        sr,
        si,
        reals,
        imags,
        n,
        target,
        Controls { ones },
        Angle { cosine, sine },
    ))
}

// Up to one control.
#[unsafe(no_mangle)]
pub extern "C" fn gate_bench_slow_rz_apply(
    sr: &[f64],
    si: &[f64],
    reals: &mut [f64],
    imags: &mut [f64],
    n: u32,
    target: u32,
    ones: u32,
    cosine: f64,
    sine: f64,
) -> u32
    ensures { Tells (into n (Gate.Rz target (controlled ones) (record { cosine = cosine; sine = sine })) (shown sr si) (before reals imags)) result
        (after reals imags) }
{
    tell(slow_gates::rz_apply(
        sr,
        si,
        reals,
        imags,
        n,
        target,
        Controls { ones },
        Angle { cosine, sine },
    ))
}

// The eight numbers of U, in 01's order. Up to one control.
#[unsafe(no_mangle)]
pub extern "C" fn gate_bench_slow_u_apply(
    sr: &[f64],
    si: &[f64],
    reals: &mut [f64],
    imags: &mut [f64],
    n: u32,
    target: u32,
    ones: u32,
    ct: f64,
    st: f64,
    cl: f64,
    sl: f64,
    cpl: f64,
    spl: f64,
    cp: f64,
    sp: f64,
) -> u32
    ensures { Tells (into n (Gate.U target (controlled ones) (eight ct st cl sl cpl spl cp sp)) (shown sr si) (before reals imags)) result
        (after reals imags) }
{
    tell(slow_gates::u_apply(
        sr,
        si,
        reals,
        imags,
        n,
        target,
        Controls { ones },
        Angles {
            ct,
            st,
            cl,
            sl,
            cpl,
            spl,
            cp,
            sp,
        },
    ))
}

// The qubits t0 and t1 exchanged.
#[unsafe(no_mangle)]
pub extern "C" fn gate_bench_slow_swap_apply(
    sr: &[f64],
    si: &[f64],
    reals: &mut [f64],
    imags: &mut [f64],
    n: u32,
    t0: u32,
    t1: u32,
) -> u32
    ensures { Tells (into n (Gate.Swap t0 t1) (shown sr si) (before reals imags)) result
        (after reals imags) }
{
    tell(slow_gates::swap_apply(sr, si, reals, imags, n, t0, t1))
}

// X if draw <= prob, else nothing; the value is 1 if X ran.
#[unsafe(no_mangle)]
pub extern "C" fn gate_bench_slow_bit_flip_noise_apply(
    sr: &[f64],
    si: &[f64],
    reals: &mut [f64],
    imags: &mut [f64],
    n: u32,
    target: u32,
    prob: f64,
    draw: f64,
) -> u32
    ensures { Tells (into n (Gate.BitFlip target (record { prob = prob; draw = draw })) (shown sr si) (before reals imags)) result
        (after reals imags) }
{
    tell(slow_gates::bit_flip_noise_apply(sr, si, reals, imags, n, target, Noise { prob, draw }))
}
