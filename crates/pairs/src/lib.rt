// The laws of the pairs that a target and its controls choose, in proofs/; and a rule put to one pair of places, amplitudes read by value, or two pairs written
// at once.
// An inner room: its functions ask for places that are there, and their callers are proved.
#![tactic(auto)]

ghost use Rattle.std.specs.Prelude.{◌≡◌};
ghost use Rattle.book.specs.Lent.{before, after, here, shown, shown_here, SameSize};
ghost use Rattle.book.specs.State.{at};
ghost use Rattle.pairs.specs.Pairs.{TwoPlaces, pair_at, PairPut};
ghost use Rattle.pairs.specs.Runs.{FourPlaces, WrittenTwo};

use book::{Amplitude, Pair};
use rules::Rule;

// Stays: `TwoPlaces` at each function: it is of the two buffers that C lends, and of two places that a loop chooses.
pub fn read_pair(reals: &[f64], imags: &[f64], s0: usize, s1: usize) -> Pair
    requires { TwoPlaces (shown_here reals imags) s0 s1 }
    ensures { result ≡ pair_at (shown reals imags) s0 s1 }
{
    Pair {
        s0: Amplitude {
            re: reals[s0],
            im: imags[s0],
        },
        s1: Amplitude {
            re: reals[s1],
            im: imags[s1],
        },
    }
}

fn write_pair(reals: &mut [f64], imags: &mut [f64], s0: usize, s1: usize, p: Pair)
    requires { TwoPlaces (here reals imags) s0 s1 }
    ensures { PairPut (λ q. p) s0 s1 (at (before reals imags)) (at (after reals imags)) × SameSize (before reals imags) (after reals imags) }
{
    let ab = p.s0;
    let cd = p.s1;
    reals[s0] = ab.re;
    imags[s0] = ab.im;
    reals[s1] = cd.re;
    imags[s1] = cd.im;
}

// A rule put to the pair at s0 and s1.
#[inline(always)]
pub fn step<R: Rule>(reals: &mut [f64], imags: &mut [f64], s0: usize, s1: usize, rule: R)
    requires { TwoPlaces (here reals imags) s0 s1 }
    ensures { PairPut (R.rule rule) s0 s1 (at (before reals imags)) (at (after reals imags)) × SameSize (before reals imags) (after reals imags) }
{
    let p = read_pair(reals, imags, s0, s1);
    write_pair(reals, imags, s0, s1, rule.put(p));
}

// Two pairs that lie stride apart. One buffer's stores stand together, so that the compiler can join those to neighbours.
pub fn write_two(
    reals: &mut [f64],
    imags: &mut [f64],
    s0: usize,
    s1: usize,
    stride: usize,
    p: Pair,
    q: Pair,
)
    requires { FourPlaces (here reals imags) s0 s1 stride }
    ensures { WrittenTwo s0 s1 stride p q (at (before reals imags)) (at (after reals imags)) × SameSize (before reals imags) (after reals imags) }
{
    let ab = p.s0;
    let cd = p.s1;
    let ef = q.s0;
    let gh = q.s1;
    let t0 = s0 + stride;
    let t1 = s1 + stride;
    reals[s0] = ab.re;
    reals[t0] = ef.re;
    reals[s1] = cd.re;
    reals[t1] = gh.re;
    imags[s0] = ab.im;
    imags[t0] = ef.im;
    imags[s1] = cd.im;
    imags[t1] = gh.im;
}
