// Z and P leave s0 as it is: the upper half of each block of 2 * 2^target places is lent on and written there.
// Stays: two buffers side by side, at each function: as C lends them.
#![tactic(auto)]

ghost use Rattle.std.specs.Prelude.{◌≡◌};
ghost use Rattle.book.specs.Answers.{Does};
ghost use Rattle.book.specs.Lent.{before, after, here};
ghost use Rattle.book.specs.State.{on_pairs};
ghost use Rattle.halves.specs.Halves.{turned_at};
ghost use Rattle.pairs.specs.Gates.{pair_gate, upper_rule};
ghost use Rattle.pairs.specs.Pairs.{UppersTurned};
ghost use Rattle.seated.specs.Judging.{Seated};
ghost use Rattle.uppers.specs.Uppers.{Blocked};

use book::{Answer, Controls};
use fed::{Fed, judge};
use halves::turn_half;
use rules::UpperRule;

// Block by block, those that hold a chosen place. A key has all fixed bits, and its place lies back below it: the fixed bits above the target are those
// of a block's key, and the upper half of the block is from a to e; the fixed bits below the target are those of the keys within the half.
// Stays: a `while`: no range has such keys.
#[inline]
fn turn_blocks<R: UpperRule>(
    reals: &mut [f64],
    imags: &mut [f64],
    n: u32,
    target: u32,
    fixed: usize,
    back: usize,
    rule: R,
)
    requires { Blocked n target fixed back (here reals imags) }
    ensures { UppersTurned (turned_at fixed back (R.upper rule)) n target (before reals imags) (after reals imags) }
{
    let size: usize = 1 << n;
    let bit: usize = 1 << target;
    let low = fixed % bit;
    let high = fixed - low;
    let under = back % bit;
    let over = back - under;
    let mut key = high;
    while key - over < size {
        let a = key - over + bit;
        let e = a + bit;
        turn_half(&mut reals[a..e], &mut imags[a..e], low, under, rule);
        key = (key + bit + bit) | high;
    }
}

// Stays: the arms are one call, since in an arm the compiler knows the number that was matched, and leaves the loop of a half out: without them Z at the
// lowest targets took up to twice as long.
#[inline(never)]
fn by_target<R: UpperRule>(
    reals: &mut [f64],
    imags: &mut [f64],
    n: u32,
    target: u32,
    fixed: usize,
    back: usize,
    rule: R,
)
    requires { Blocked n target fixed back (here reals imags) }
    ensures { UppersTurned (turned_at fixed back (R.upper rule)) n target (before reals imags) (after reals imags) }
{
    match target {
        0 => turn_blocks(reals, imags, n, target, fixed, back, rule),
        1 => turn_blocks(reals, imags, n, target, fixed, back, rule),
        2 => turn_blocks(reals, imags, n, target, fixed, back, rule),
        _ => turn_blocks(reals, imags, n, target, fixed, back, rule),
    }
}

// The chosen places are those that have all ones of the controls: these are fixed, and nothing is taken back.
// Without controls Z has a loop for each of the lowest targets.
fn turn<R: UpperRule>(
    reals: &mut [f64],
    imags: &mut [f64],
    n: u32,
    target: u32,
    controls: Controls,
    rule: R,
)
    requires { Seated n target controls (here reals imags) }
    ensures { after reals imags ≡ on_pairs (upper_rule (R.upper rule)) n target controls (before reals imags) }
{
    let fixed = controls.ones as usize;
    if R::JOINS && fixed == 0 {
        by_target(reals, imags, n, target, fixed, 0, rule);
        return;
    }
    turn_blocks(reals, imags, n, target, fixed, 0, rule);
}

// A gate that leaves s0 as it is: judged once, then turned block by block.
// Stays: sweeps has another like it, and says why.
#[inline]
pub fn on_uppers<G: UpperRule + Fed>(
    reals: &mut [f64],
    imags: &mut [f64],
    n: u32,
    target: u32,
    controls: Controls,
    gate: G,
) -> Answer
    ensures { Does (pair_gate (upper_rule (G.upper gate)) G.MOST (G.own gate) n target controls (before reals imags)) result (after reals imags) }
{
    judge(reals, imags, n, target, controls, gate)?;
    turn(reals, imags, n, target, controls, gate);
    Ok(None)
}
