// A gate's rule put to each chosen pair: judged once, then swept.
#![tactic(auto)]

ghost use Rattle.std.specs.Prelude.{◌≡◌};
ghost use Rattle.book.specs.Answers.{Does};
ghost use Rattle.book.specs.Lent.{before, after, here};
ghost use Rattle.book.specs.State.{on_pairs};
ghost use Rattle.pairs.specs.Gates.{pair_gate};
ghost use Rattle.seated.specs.Judging.{Seated};

use book::{Answer, Controls};
use fed::{Fed, judge};
use forms::sweep;
use keys::by_keys;
use rules::Rule;

// A rule on the pairs of a call that was judged: one that needs F goes key by key, any other run by run.
#[inline]
pub fn put_chosen<R: Rule>(
    reals: &mut [f64],
    imags: &mut [f64],
    n: u32,
    target: u32,
    controls: Controls,
    rule: R,
)
    requires { Seated n target controls (here reals imags) }
    ensures { after reals imags ≡ on_pairs (R.rule rule) n target controls (before reals imags) }
{
    let bit: usize = 1 << target;
    let fixed = controls.ones as usize + bit;
    if R::NEEDS_F {
        by_keys(reals, imags, n, fixed, bit, 0, rule);
        return;
    }
    sweep(reals, imags, n, fixed, bit, 0, rule);
}

// A gate on pairs.
// Stays: uppers has another like it: behind the judge each has a step of its own, over a trait of its own.
#[inline]
pub fn on_pairs<G: Rule + Fed>(
    reals: &mut [f64],
    imags: &mut [f64],
    n: u32,
    target: u32,
    controls: Controls,
    gate: G,
) -> Answer
    ensures { Does (pair_gate (G.rule gate) G.MOST (G.own gate) n target controls (before reals imags)) result (after reals imags) }
{
    judge(reals, imags, n, target, controls, gate)?;
    put_chosen(reals, imags, n, target, controls, gate);
    Ok(None)
}
