// The table of the twelve gates: a gate's code, target and shape.
#![tactic(auto)]

ghost use Rattle.std.specs.Prelude.{◌≡◌};
ghost use Rattle.book.specs.Records.{parts, parts_of};

use book::{Gate, Parts, Shape};

// Stays: a gate's code is 01's number, and goes among a record's bytes.
fn parts(code: u8, target: u8, shape: Shape) -> Parts
    ensures { result ≡ parts code target shape }
{
    Parts {
        code,
        target,
        shape,
    }
}

pub fn parts_of(gate: Gate) -> Parts
    ensures { result ≡ parts_of gate }
{
    match gate {
        Gate::H(t, c) => parts(1, t, Shape::Plain(c)),
        Gate::X(t, c) => parts(2, t, Shape::Plain(c)),
        Gate::Y(t, c) => parts(3, t, Shape::Plain(c)),
        Gate::Z(t, c) => parts(4, t, Shape::Plain(c)),
        Gate::P(t, c, a) => parts(5, t, Shape::Angled(c, a)),
        Gate::Rx(t, c, a) => parts(6, t, Shape::Angled(c, a)),
        Gate::Ry(t, c, a) => parts(7, t, Shape::Angled(c, a)),
        Gate::Rz(t, c, a) => parts(8, t, Shape::Angled(c, a)),
        Gate::U(t, c, g) => parts(9, t, Shape::Eight(c, g)),
        Gate::Swap(t, u) => parts(10, t, Shape::Second(u)),
        Gate::Measure(t, f) => parts(11, t, Shape::Forced(f)),
        Gate::BitFlip(t, n) => parts(12, t, Shape::Noisy(n)),
    }
}
