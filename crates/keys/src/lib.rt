// The chosen pairs one by one, key by key: for the gates whose rule needs F.
// An inner room: its function asks for keys whose pairs lie apart, and its callers are proved.
#![tactic(auto)]

ghost use Rattle.book.specs.Lent.{before, after, here};
ghost use Rattle.pairs.specs.Pairs.{Keyed, Swept};

use pairs::step;
use rules::Rule;

// w goes over the numbers that have all bits of fixed, rising; each is the key of a pair, at w - back0 and w - back1.
// Stays: a `while`: no range has such numbers.
pub fn by_keys<R: Rule>(
    reals: &mut [f64],
    imags: &mut [f64],
    n: u32,
    fixed: usize,
    back0: usize,
    back1: usize,
    rule: R,
)
    requires { Keyed n fixed back0 back1 (here reals imags) }
    ensures { Swept (R.rule rule) n fixed back0 back1 (before reals imags) (after reals imags) }
{
    let size: usize = 1 << n;
    let mut w = fixed;
    while w < size {
        step(reals, imags, w - back0, w - back1, rule);
        w = (w + 1) | fixed;
    }
}
