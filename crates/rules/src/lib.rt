// The rules of the gates, as types: a Rule is what a gate makes of a pair, an UpperRule what it makes of s1 alone where it leaves s0. A loop over pairs is
// written once, for any of them, and the compiler makes one for each. Here are those that need no F.
#![tactic(auto)]

ghost use Rattle.std.specs.Prelude.{◌≡◌};
ghost use Rattle.book.specs.Gates.{x_rule, y_rule, h_rule, rx_rule, ry_rule};
ghost use Rattle.book.specs.State.{pair};
ghost use Rattle.book.specs.declared.Amplitude.{Amplitude};
ghost use Rattle.book.specs.declared.Pair.{Pair};
ghost use Rattle.rules.specs.Rules.{z_upper};

use angle_rules::{rx_rule, ry_rule};
use book::{Amplitude, Angle, Pair};
use plain_rules::{h_rule, x_rule, y_rule};

// What a gate makes of the pair at two places.
pub trait Rule: Copy {
    ghost rule: { Self → Pair → Pair };

    // Whether it needs F.
    const NEEDS_F: bool;

    fn put(self, p: Pair) -> Pair
        ensures { result ≡ rule self p };
}

// What a gate that leaves s0 makes of s1.
pub trait UpperRule: Copy {
    ghost upper: { Self → Amplitude → Amplitude };

    // Whether the compiler joins turns over its places by itself.
    const JOINS: bool;

    fn put_upper(self, cd: Amplitude) -> Amplitude
        ensures { result ≡ upper self cd };

    // ... at two places.
    fn put_uppers(self, ab: Amplitude, cd: Amplitude) -> Pair
        ensures { result ≡ pair (upper self ab) (upper self cd) };
}

#[derive(Clone, Copy)]
pub struct X;

impl Rule for X {
    ghost rule = { λ x. x_rule };

    const NEEDS_F: bool = false;

    fn put(self, p: Pair) -> Pair {
        x_rule(p)
    }
}

#[derive(Clone, Copy)]
pub struct Y;

impl Rule for Y {
    ghost rule = { λ y. y_rule };

    const NEEDS_F: bool = false;

    fn put(self, p: Pair) -> Pair {
        y_rule(p)
    }
}

#[derive(Clone, Copy)]
pub struct H;

impl Rule for H {
    ghost rule = { λ h. h_rule };

    const NEEDS_F: bool = false;

    fn put(self, p: Pair) -> Pair {
        h_rule(p)
    }
}

// The angle is the half angle, here and in RY.
#[derive(Clone, Copy)]
pub struct Rx(pub Angle);

impl Rule for Rx {
    ghost rule = { λ rx. rx_rule rx.0 };

    const NEEDS_F: bool = false;

    fn put(self, p: Pair) -> Pair {
        rx_rule(self.0, p)
    }
}

#[derive(Clone, Copy)]
pub struct Ry(pub Angle);

impl Rule for Ry {
    ghost rule = { λ ry. ry_rule ry.0 };

    const NEEDS_F: bool = false;

    fn put(self, p: Pair) -> Pair {
        ry_rule(self.0, p)
    }
}

#[derive(Clone, Copy)]
pub struct Z;

impl UpperRule for Z {
    ghost upper = { λ z. z_upper };

    const JOINS: bool = true;

    fn put_upper(self, cd: Amplitude) -> Amplitude {
        Amplitude {
            re: -cd.re,
            im: -cd.im,
        }
    }

    fn put_uppers(self, ab: Amplitude, cd: Amplitude) -> Pair {
        Pair {
            s0: self.put_upper(ab),
            s1: self.put_upper(cd),
        }
    }
}
