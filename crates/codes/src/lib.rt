// The gate that stands behind 04, by its code: what has a mask is read in the crate masked. Nothing may follow.
#![tactic(auto, unfolding(book::specs::Records::listed))]

ghost use Rattle.std.specs.Prelude.{◌≡◌};
ghost use Rattle.book.specs.Records.{second, forced, noisy, row_of, read_row};

use book::{Forced, Gate, Noise};
use fields::{last, number_field, pair_field};
use heads::field;
use masked::{read_angled, read_plain, read_u};

// Code 10: the second qubit.
fn read_swap(bytes: &[u8], target: u8) -> Option<Gate>
    ensures { result ≡ read_row (second Gate.Swap) target bytes.now }
{
    let (other, rest) = number_field(bytes, 0x06, 1)?;
    last(rest, Gate::Swap(target, other as u8))
}

// Code 11: outcome and reset.
fn read_measure(bytes: &[u8], target: u8) -> Option<Gate>
    ensures { result ≡ read_row (forced Gate.Measure) target bytes.now }
{
    let (both, rest) = field(bytes, 0x09, 2)?;
    let forced = Forced {
        outcome: both[0],
        reset: both[1],
    };
    last(rest, Gate::Measure(target, forced))
}

// Code 12: prob and draw.
fn read_flip(bytes: &[u8], target: u8) -> Option<Gate>
    ensures { result ≡ read_row (noisy Gate.BitFlip) target bytes.now }
{
    let ((prob, draw), rest) = pair_field(bytes, 0x0a)?;
    last(rest, Gate::BitFlip(target, Noise { prob, draw }))
}

// The fields behind 04, by code.
// Stays: a record's code is a number among its bytes, and here it becomes a gate.
pub fn read_gate(bytes: &[u8], code: u32, target: u8) -> Option<Gate>
    ensures { result ≡ read_row (row_of code) target bytes.now }
{
    match code {
        1 => read_plain(bytes).map(|c| Gate::H(target, c)),
        2 => read_plain(bytes).map(|c| Gate::X(target, c)),
        3 => read_plain(bytes).map(|c| Gate::Y(target, c)),
        4 => read_plain(bytes).map(|c| Gate::Z(target, c)),
        5 => read_angled(bytes).map(|(c, a)| Gate::P(target, c, a)),
        6 => read_angled(bytes).map(|(c, a)| Gate::Rx(target, c, a)),
        7 => read_angled(bytes).map(|(c, a)| Gate::Ry(target, c, a)),
        8 => read_angled(bytes).map(|(c, a)| Gate::Rz(target, c, a)),
        9 => read_u(bytes, target),
        10 => read_swap(bytes, target),
        11 => read_measure(bytes, target),
        12 => read_flip(bytes, target),
        _ => None,
    }
}
