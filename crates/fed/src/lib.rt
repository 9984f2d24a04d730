// What a gate is fed, and what its call is judged by: its seat, with how many controls it takes, and then its own tests.
#![tactic(auto, using(seated::proofs::Judged::none_judged))]

ghost use Rattle.std.specs.Prelude.{ℕ, List, [], ◌++◌};
ghost use Rattle.book.specs.Answers.{Test};
ghost use Rattle.book.specs.Calls.{any};
ghost use Rattle.book.specs.Gates.{angle_of, angles_of, finite_tests};
ghost use Rattle.book.specs.Kernels.{size_tests, seat_tests};
ghost use Rattle.book.specs.Lent.{shown};
ghost use Rattle.seated.specs.Judging.{Judges};

use book::{ANY, Angle, Angles, Controls, Refusal};
use fused_rules::{P, Rz};
use rules::{H, Rx, Ry, X, Y, Z};
use u_rules::U;

pub trait Fed: Copy {
    ghost MOST: { ℕ };

    ghost own: { Self → List Test };

    // How many controls it takes.
    const MOST: u32;

    // Its own tests, behind those of its seat.
    fn own(self) -> Result<(), Refusal>
        ensures { Judges (own self) result };
}

// Tests 1 to 5, and then the gate's own.
pub fn judge<G: Fed>(
    reals: &[f64],
    imags: &[f64],
    n: u32,
    target: u32,
    controls: Controls,
    gate: G,
) -> Result<(), Refusal>
    ensures { Judges (size_tests n (shown reals imags) ++ (seat_tests G.MOST n target controls ++ G.own gate)) result }
{
    let seat = judging::seat(reals, imags, n, target, controls, G::MOST);
    let own = gate.own();
    seat.and(own)
}

// Test 6 of an angle.
fn judge_angle(angle: Angle) -> Result<(), Refusal>
    ensures { Judges (finite_tests (angle_of angle)) result }
{
    judging::numbers(&[angle.cosine, angle.sine])
}

impl Fed for X {
    ghost MOST = { any };

    ghost own = { λ x. [] };

    const MOST: u32 = ANY;

    fn own(self) -> Result<(), Refusal> {
        Ok(())
    }
}

impl Fed for Y {
    ghost MOST = { 1 };

    ghost own = { λ y. [] };

    const MOST: u32 = 1; // Y's

    fn own(self) -> Result<(), Refusal> {
        Ok(())
    }
}

impl Fed for Z {
    ghost MOST = { 0 };

    ghost own = { λ z. [] };

    const MOST: u32 = 0;

    fn own(self) -> Result<(), Refusal> {
        Ok(())
    }
}

impl Fed for H {
    ghost MOST = { 1 };

    ghost own = { λ h. [] };

    const MOST: u32 = 1; // H's

    fn own(self) -> Result<(), Refusal> {
        Ok(())
    }
}

impl Fed for P {
    ghost MOST = { any };

    ghost own = { λ p. finite_tests (angle_of p.angle) };

    const MOST: u32 = ANY;

    fn own(self) -> Result<(), Refusal> {
        judge_angle(self.angle)
    }
}

impl Fed for Rx {
    ghost MOST = { any };

    ghost own = { λ rx. finite_tests (angle_of rx.0) };

    const MOST: u32 = ANY;

    fn own(self) -> Result<(), Refusal> {
        judge_angle(self.0)
    }
}

impl Fed for Ry {
    ghost MOST = { any };

    ghost own = { λ ry. finite_tests (angle_of ry.0) };

    const MOST: u32 = ANY;

    fn own(self) -> Result<(), Refusal> {
        judge_angle(self.0)
    }
}

impl Fed for Rz {
    ghost MOST = { 1 };

    ghost own = { λ rz. finite_tests (angle_of rz.angle) };

    const MOST: u32 = 1; // RZ's

    fn own(self) -> Result<(), Refusal> {
        judge_angle(self.angle)
    }
}

impl Fed for U {
    ghost MOST = { 1 };

    ghost own = { λ u. finite_tests (angles_of u.angles) };

    const MOST: u32 = 1; // U's

    fn own(self) -> Result<(), Refusal> {
        self.angles.own()
    }
}

// What U is made of, so that it can be judged before U's matrix and their upper parts are worked out.
impl Fed for Angles {
    ghost MOST = { 1 };

    ghost own = { λ g. finite_tests (angles_of g) };

    const MOST: u32 = 1; // U's, too

    fn own(self) -> Result<(), Refusal> {
        judging::numbers(&[
            self.ct, self.st, self.cl, self.sl, self.cpl, self.spl, self.cp, self.sp,
        ])
    }
}
