// The slow engine: what a gate leaves at an index, worked out for that index alone in document 01's words, from input buffers to separate output buffers.
// It goes by the book and by F: no pairs, no blocks, and no loop, choice or store of the kernels. Crate slow_gates has its calls.
// An inner room: what it asks its caller has tested, and that is proved.
#![tactic(auto)]

ghost use Rattle.std.specs.Prelude.{◌≡◌, ◌^◌, ◌<◌, ℕ};
ghost use Rattle.book.specs.Kernels as Book;
ghost use Rattle.book.specs.Lent.{before, after, here, shown, shown_here, SameSize};
ghost use Rattle.book.specs.State.{at, placed};
ghost use Rattle.slow_rules.specs.Rules.{rule_of};
ghost use Rattle.slow.specs.Slow.{Reaches, Sized};

use book::{Amplitude, Controls};
use matrices::{read_at, write_at};
use slow_rules::Rule;

// A rule put to the chosen pairs. An index s0 has the target bit 0 and all mask bits 1, and s1 = s0 + 2^target. Only such pairs change.
pub fn place_of_pair(
    rule: Rule,
    target: u32,
    controls: Controls,
    reals: &[f64],
    imags: &[f64],
    i: usize,
) -> Amplitude
    requires { Reaches target target (shown_here reals imags) i }
    ensures { result ≡ placed (rule_of rule) target controls (at (shown reals imags)) i }
{
    let ones = controls.ones as usize;
    let bit: usize = 1 << target;
    let above = i + bit;
    let own = read_at(reals, imags, i);
    if i & ones != ones {
        return own;
    }
    if (i >> target) % 2 == 0 {
        let both = rule.put(own, read_at(reals, imags, above));
        return both.s0;
    }
    let both = rule.put(read_at(reals, imags, i - bit), own);
    both.s1
}

// The index with the bits t0 and t1 exchanged.
fn exchanged(t0: u32, t1: u32, i: usize) -> usize
    requires { (t0 < 24) × (t1 < 24) × (i < 2 ^ 24) }
    ensures { result ≡ Book.exchanged t0 t1 i }
{
    let bit0 = (i >> t0) % 2;
    let bit1 = (i >> t1) % 2;
    i + (bit1 << t0) + (bit0 << t1) - ((bit0 << t0) + (bit1 << t1))
}

// The target exchanged with a second qubit: the amplitude of the index with both bits exchanged.
pub fn place_of_swap(target: u32, second: u32, reals: &[f64], imags: &[f64], i: usize) -> Amplitude
    requires { Reaches target second (shown_here reals imags) i }
    ensures { result ≡ at (shown reals imags) (Book.exchanged target second i) }
{
    read_at(reals, imags, exchanged(target, second, i))
}

// Every index of the outputs, one after the other.
pub fn fill<F: Fn(usize) -> Amplitude>(place: F, n: u32, reals: &mut [f64], imags: &mut [f64])
    requires outputs { Sized n (here reals imags) }
    requires each { (i : ℕ) → i < 2 ^ n → F.pre place i }
    ensures size { SameSize (before reals imags) (after reals imags) }
    ensures places { (i : ℕ) → i < 2 ^ n → F.post place i (at (after reals imags) i) }
{
    let size: usize = 1 << n;
    for i in 0..size {
        write_at(reals, imags, i, place(i));
    }
}

// ... by a rule put to the chosen pairs. By a call of its own, for whoever has a rule: set into a caller that knows its controls, it took half as long again.
#[inline(never)]
pub fn fill_pairs(
    rule: Rule,
    n: u32,
    target: u32,
    controls: Controls,
    sr: &[f64],
    si: &[f64],
    reals: &mut [f64],
    imags: &mut [f64],
)
    requires outputs { Sized n (here reals imags) }
    requires inputs { (i : ℕ) → i < 2 ^ n → Reaches target target (shown_here sr si) i }
    ensures size { SameSize (before reals imags) (after reals imags) }
    ensures places { (i : ℕ) → i < 2 ^ n → at (after reals imags) i ≡ placed (rule_of rule) target controls (at (shown sr si)) i }
{
    let place = |i| place_of_pair(rule, target, controls, sr, si, i);
    fill(place, n, reals, imags);
}
