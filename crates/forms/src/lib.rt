// The loops over runs in the forms that the compiler makes of them: by the length of a run, by the stride, and by the gate's rule. `runs` is set in at each
// call, with the numbers that are literals there.
// An inner room: its function asks for keys whose pairs lie apart, and its callers are proved.
#![tactic(auto)]

ghost use Rattle.std.specs.Prelude.{◌+◌, ◌-◌, ◌<◌, ◌^◌};
ghost use Rattle.book.specs.Lent.{before, after, here};
ghost use Rattle.pairs.specs.Pairs.{Keyed, Swept};
ghost use Rattle.pairs.specs.Runs.{Runs};

use pairs::step;
use rules::Rule;
use runs::{Cut, runs};

// From this length on a run is left to the compiler's own joining of turns.
const LONG: usize = 32;

// Neighbouring keys, in short runs, by a function of its own: in one with the other forms the compiler keeps too much outside the registers.
// Stays: two buffers side by side, and a key's numbers one by one, here and below: C lends the buffers so, and a struct of the rest would be made for one call.
#[inline(never)]
fn short<R: Rule>(
    reals: &mut [f64],
    imags: &mut [f64],
    n: u32,
    wide: usize,
    run: usize,
    back0: usize,
    back1: usize,
    rule: R,
)
    requires { Runs n wide run 1 back0 back1 (here reals imags) }
    ensures { Swept (R.rule rule) n (wide + (1 - 1)) back0 back1 (before reals imags) (after reals imags) }
{
    let cut = Cut {
        wide,
        run,
        stride: 1,
    };
    runs::<R, true>(reals, imags, n, cut, back0, back1, rule);
}

// Run by run, where not every qubit is fixed. The fixed bits are cut in two: the ones that they end in give the stride,
// and the lowest bit of the rest the length of a run.
fn by_runs<R: Rule>(
    reals: &mut [f64],
    imags: &mut [f64],
    n: u32,
    fixed: usize,
    back0: usize,
    back1: usize,
    rule: R,
)
    requires { Keyed n fixed back0 back1 (here reals imags) × (fixed + 1 < 2 ^ n) }
    ensures { Swept (R.rule rule) n fixed back0 back1 (before reals imags) (after reals imags) }
{
    let size: usize = 1 << n;
    let k = usize::trailing_zeros(fixed + 1);
    let stride: usize = 1 << k;
    let wide = fixed - (stride - 1);
    let r = usize::trailing_zeros(wide + size);
    let run: usize = 1 << r;
    if stride == 1 {
        // Neighbouring keys.
        let cut = Cut {
            wide,
            run,
            stride: 1,
        };
        if run < LONG {
            short(reals, imags, n, wide, run, back0, back1, rule);
            return;
        }
        runs::<R, false>(reals, imags, n, cut, back0, back1, rule);
        return;
    }
    if stride == 2 && back0 == 1 {
        // Each second key, with neighbouring places: target 0.
        let cut = Cut {
            wide,
            run,
            stride: 2,
        };
        runs::<R, true>(reals, imags, n, cut, 1, 0, rule);
        return;
    }
    let cut = Cut { wide, run, stride };
    runs::<R, true>(reals, imags, n, cut, back0, back1, rule);
}

// A rule that needs no F, run by run; where every qubit is fixed there is one pair.
pub fn sweep<R: Rule>(
    reals: &mut [f64],
    imags: &mut [f64],
    n: u32,
    fixed: usize,
    back0: usize,
    back1: usize,
    rule: R,
)
    requires { Keyed n fixed back0 back1 (here reals imags) }
    ensures { Swept (R.rule rule) n fixed back0 back1 (before reals imags) (after reals imags) }
{
    let size: usize = 1 << n;
    if fixed + 1 == size {
        step(reals, imags, fixed - back0, fixed - back1, rule);
        return;
    }
    by_runs(reals, imags, n, fixed, back0, back1, rule);
}
