// A record from its six whole numbers and eight floats. Places that a gate has no number for are not looked at.
#![tactic(auto)]

ghost use Rattle.std.specs.Prelude.{◌≡◌};
ghost use Rattle.book.specs.Answers.{gives_of, or_denied};
ghost use Rattle.book.specs.Records.{row_of};
ghost use Rattle.from_flat.specs.Records.{numbers_at, swap_of, measure_of, gate_of, record_of};

use book::{Angle, Angles, Controls, Forced, Gate, Noise, Record, Refusal};

fn numbers_at(numbers: &[f64; 8]) -> Angles
    ensures { result ≡ numbers_at numbers.now }
{
    let [ct, st, cl, sl, cpl, spl, cp, sp] = *numbers;
    Angles {
        ct,
        st,
        cl,
        sl,
        cpl,
        spl,
        cp,
        sp,
    }
}

// SWAP's second qubit is a byte.
fn swap_of(target: u8, second: u32) -> Option<Gate>
    ensures { result ≡ swap_of target second }
{
    let second = u8::try_from(second).ok()?;
    Some(Gate::Swap(target, second))
}

// A measurement's outcome and reset are bytes.
fn measure_of(target: u8, outcome: u32, reset: u32) -> Option<Gate>
    ensures { result ≡ measure_of target outcome reset }
{
    let outcome = u8::try_from(outcome).ok()?;
    let reset = u8::try_from(reset).ok()?;
    Some(Gate::Measure(target, Forced { outcome, reset }))
}

// Stays: a record's code is a number among its numbers, and here it becomes a gate.
fn gate_of(code: u32, target: u8, second: u32, reset: u32, g: Angles) -> Option<Gate>
    ensures { result ≡ gate_of (row_of code) target second reset g }
{
    let c = Controls::of(second);
    let angle = Angle {
        cosine: g.ct,
        sine: g.st,
    };
    let noise = Noise {
        prob: g.ct,
        draw: g.st,
    };
    match code {
        1 => Some(Gate::H(target, c)),
        2 => Some(Gate::X(target, c)),
        3 => Some(Gate::Y(target, c)),
        4 => Some(Gate::Z(target, c)),
        5 => Some(Gate::P(target, c, angle)),
        6 => Some(Gate::Rx(target, c, angle)),
        7 => Some(Gate::Ry(target, c, angle)),
        8 => Some(Gate::Rz(target, c, angle)),
        9 => Some(Gate::U(target, c, g)),
        10 => swap_of(target, second),
        11 => measure_of(target, second, reset),
        12 => Some(Gate::BitFlip(target, noise)),
        _ => None,
    }
}

// The record that the first places are.
#[tactic(auto, unfolding(crate::specs::Records::record_of, flat::specs::Numbers::too_few))]
fn read_places(fields: &[u32], numbers: &[f64]) -> Option<Record>
    ensures { result ≡ record_of fields.now numbers.now }
{
    let [session, number, code, target, second, reset] = *fields.first_chunk::<6>()?;
    let eight = numbers_at(numbers.first_chunk::<8>()?);
    let number = u16::try_from(number).ok()?;
    let target = u8::try_from(target).ok()?;
    let gate = gate_of(code, target, second, reset, eight)?;
    Some(Record {
        session,
        number,
        gate,
    })
}

// It, or refusal 8.
pub fn record_of(fields: &[u32], numbers: &[f64]) -> Result<Record, Refusal>
    ensures { gives_of result ≡ or_denied 8 (record_of fields.now numbers.now) }
{
    read_places(fields, numbers).ok_or(Refusal::Record)
}
