// Forced measurement: the port of measurement.rs. The probability is known before the first store, so a refusal leaves both buffers as they were.
#![tactic(auto)]

ghost use Rattle.book.specs.Answers.{Does};
ghost use Rattle.book.specs.Calls.{act};
ghost use Rattle.book.specs.Lent.{before, after, here};
ghost use Rattle.book.specs.State.{uncontrolled};
ghost use Rattle.seated.specs.Judging.{Seated};
ghost use Rattle.measurement.specs.Resets.{Reset};

use book::{Answer, Controls, Forced, Gate};
use chances::{chance, one_over_root};
use collapses::collapse;
use rules::X;
use sweeps::put_chosen;

// If the outcome is 1 and reset is 1, X follows.
fn set_back(reals: &mut [f64], imags: &mut [f64], n: u32, target: u32, forced: Forced)
    requires { Seated n target uncontrolled (here reals imags) }
    ensures { Reset n target forced (before reals imags) (after reals imags) }
{
    if forced.outcome == 1 && forced.reset == 1 {
        put_chosen(reals, imags, n, target, Controls::of(0), X);
    }
}

// A forced measurement of the target; the answer is the outcome.
pub fn measure_qubit(
    reals: &mut [f64],
    imags: &mut [f64],
    n: u32,
    target: u32,
    forced: Forced,
) -> Answer
    ensures { Does (act n (Gate.Measure target forced) (before reals imags)) result (after reals imags) }
{
    judging::free_seat(reals, imags, n, target)?;
    let p = chance(reals, imags, n, target, forced.outcome);
    chances::own(forced, p)?;
    collapse(reals, imags, n, target, forced.outcome, one_over_root(p));
    set_back(reals, imags, n, target, forced);
    Ok(Some(forced.outcome))
}
