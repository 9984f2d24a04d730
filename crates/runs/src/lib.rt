// The chosen pairs run by run, for the gates that need no F: each run is lent as one part of both buffers, as C lends them.
// An inner room: its function asks for the cut of the fixed bits, and its callers are proved. Each is set in where it is called, with the numbers known there.
#![tactic(auto)]

ghost use Rattle.std.specs.Prelude.{◌+◌, ◌-◌};
ghost use Rattle.book.specs.Lent.{before, after, here};
ghost use Rattle.pairs.specs.Pairs.{Swept};
ghost use Rattle.pairs.specs.Runs.{Run, RunDone, Runs};

use pairs::{read_pair, step, write_two};
use rules::Rule;

// One pair at a turn, at each stride-th place.
// Stays: a `while`, here and below. `(0..run).step_by(stride)` tests the end twice a turn: with it X and Y took up to a third longer in short runs.
// And a loop of its own for two pairs, which reads both before it writes.
#[inline(always)]
fn along<R: Rule>(
    reals: &mut [f64],
    imags: &mut [f64],
    run: usize,
    d: usize,
    stride: usize,
    rule: R,
)
    requires { Run run d stride (here reals imags) }
    ensures { RunDone (R.rule rule) run d stride (before reals imags) (after reals imags) }
{
    let mut i = 0;
    while i < run {
        step(reals, imags, i, i + d, rule);
        i += stride;
    }
}

// Two pairs at a turn: both are read before either is written.
#[inline(always)]
fn by_twos<R: Rule>(
    reals: &mut [f64],
    imags: &mut [f64],
    run: usize,
    d: usize,
    stride: usize,
    rule: R,
)
    requires { Run run d stride (here reals imags) }
    ensures { RunDone (R.rule rule) run d stride (before reals imags) (after reals imags) }
{
    let mut i = 0;
    while i < run {
        let next = i + stride;
        let p = read_pair(reals, imags, i, i + d);
        let q = read_pair(reals, imags, next, next + d);
        let v = rule.put(p);
        let w = rule.put(q);
        write_two(reals, imags, i, i + d, stride, v, w);
        i += stride * 2;
    }
}

// The numbers of the runs: the fixed bits are wide and the ones below stride, a power of two, and a run is as long as the lowest bit of wide.
#[derive(Clone, Copy)]
pub struct Cut {
    pub wide: usize,
    pub run: usize,
    pub stride: usize,
}

// u goes over the numbers that have all bits of wide, run by run; each stride-th of those is a key. TWO pairs go at a turn, or one.
// Stays: a `while`: no range has such numbers.
#[inline(always)]
pub fn runs<R: Rule, const TWO: bool>(
    reals: &mut [f64],
    imags: &mut [f64],
    n: u32,
    cut: Cut,
    back0: usize,
    back1: usize,
    rule: R,
)
    requires { Runs n cut.wide cut.run cut.stride back0 back1 (here reals imags) }
    ensures { Swept (R.rule rule) n (cut.wide + (cut.stride - 1)) back0 back1 (before reals imags) (after reals imags) }
{
    let size = reals.len();
    let Cut { wide, run, stride } = cut;
    let low = stride - 1;
    let d = back0 - back1;
    let mut u = wide;
    while u < size {
        let a = u + low - back0;
        let e = u + run - back1;
        let re = &mut reals[a..e];
        let im = &mut imags[a..e];
        if TWO {
            by_twos(re, im, run, d, stride, rule);
        } else {
            along(re, im, run, d, stride, rule);
        }
        u = (u + run) | wide;
    }
}
