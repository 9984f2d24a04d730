// The places of a lent upper half, turned where the controls below the target choose them: key by key, two keys at a turn, or straight along.
// An inner room: its function asks for two buffers of one length, and its callers are proved.
#![tactic(auto)]

ghost use Rattle.std.specs.Prelude.{length, ◌≡◌};
ghost use Rattle.book.specs.Lent.{before, after, here};
ghost use Rattle.halves.specs.Halves.{turned_at, HalfTurned, Half, Even};

use book::Amplitude;
use rules::UpperRule;

// Every place of the lent half, one at a turn: the compiler joins turns by itself.
#[inline]
fn turn_along<R: UpperRule>(reals: &mut [f64], imags: &mut [f64], rule: R)
    requires { length imags.old ≡ length reals.old }
    ensures { HalfTurned (λ _. R.upper rule) (before reals imags) (after reals imags) }
{
    for j in 0..reals.len() {
        let cd = Amplitude {
            re: reals[j],
            im: imags[j],
        };
        let turned = rule.put_upper(cd);
        reals[j] = turned.re;
        imags[j] = turned.im;
    }
}

// w goes over the numbers that have all bits of low, rising; each is the key of a place, at w - back.
// Stays: `Half` at this function and the two below: it is of two parts of the buffers that C lends. And a `while`, here and below: no range has such numbers.
#[inline]
fn turn_chosen<R: UpperRule>(reals: &mut [f64], imags: &mut [f64], low: usize, back: usize, rule: R)
    requires { Half low back (here reals imags) }
    ensures { HalfTurned (turned_at low back (R.upper rule)) (before reals imags) (after reals imags) }
{
    let mut w = low;
    while w - back < reals.len() {
        let j = w - back;
        let cd = Amplitude {
            re: reals[j],
            im: imags[j],
        };
        let turned = rule.put_upper(cd);
        reals[j] = turned.re;
        imags[j] = turned.im;
        w = (w + 1) | low;
    }
}

// Two places at a turn: where low is even, the number after an even key is a key too. Both are read before either is written, and one buffer's stores stand
// together, so that the compiler can join them.
#[inline]
fn turn_by_twos<R: UpperRule>(
    reals: &mut [f64],
    imags: &mut [f64],
    low: usize,
    back: usize,
    rule: R,
)
    requires { Half low back (here reals imags) × Even low back (here reals imags) }
    ensures { HalfTurned (turned_at low back (R.upper rule)) (before reals imags) (after reals imags) }
{
    let mut v = low;
    while v - back < reals.len() {
        let j = v - back;
        let k = j + 1;
        let a = reals[j];
        let c = reals[k];
        let b = imags[j];
        let d = imags[k];
        let turned = rule.put_uppers(Amplitude { re: a, im: b }, Amplitude { re: c, im: d });
        reals[j] = turned.s0.re;
        reals[k] = turned.s1.re;
        imags[j] = turned.s0.im;
        imags[k] = turned.s1.im;
        v = (v + 2) | low;
    }
}

// From this length on a half without controls is left to the compiler's own joining of turns, where it joins them.
const LONG: usize = 8;

#[inline]
pub fn turn_half<R: UpperRule>(
    reals: &mut [f64],
    imags: &mut [f64],
    low: usize,
    back: usize,
    rule: R,
)
    requires { Half low back (here reals imags) }
    ensures { HalfTurned (turned_at low back (R.upper rule)) (before reals imags) (after reals imags) }
{
    let len = reals.len();
    let even = low % 2 == 0 && back % 2 == 0 && len % 2 == 0;
    if even && (!R::JOINS || len < LONG) {
        turn_by_twos(reals, imags, low, back, rule);
        return;
    }
    if R::JOINS && low == 0 {
        turn_along(reals, imags, rule);
        return;
    }
    turn_chosen(reals, imags, low, back, rule);
}
