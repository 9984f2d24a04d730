// The floats of a case, eight bytes each, the highest first: those of the first operand, of the second, and of what is wanted, reals and then imags.
ghost use Rattle.std.specs.Prelude.{◌≤◌};

use reading::read_full;
use std::io;
use std::io::Read;
use wire::{bits_of, float_of};

// An operand's places, which are the first of so many.
#[derive(Clone, Copy)]
pub(crate) struct Part {
    pub(crate) reals: [f64; 64],
    pub(crate) imags: [f64; 64],
    pub(crate) count: usize,
    ghost few: { count ≤ 64 },
}

impl Part {
    pub(crate) fn re(&self) -> &[f64] {
        &self.reals[..self.count]
    }

    pub(crate) fn im(&self) -> &[f64] {
        &self.imags[..self.count]
    }
}

#[derive(Clone, Copy)]
pub(crate) struct Floats {
    pub(crate) first: Part,
    pub(crate) second: Part,
    pub(crate) wanted: Part,
}

// Whether all are read.
fn fill<R: Read>(input: &mut R, floats: &mut [f64]) -> io::Result<bool> {
    let mut bytes = [0u8; 8];
    for x in floats.iter_mut() {
        if read_full(input, &mut bytes)? < 8 {
            return Ok(false);
        }
        *x = float_of(u64::from_be_bytes(bytes));
    }
    Ok(true)
}

// No operand has more places.
const MOST_PLACES: usize = 64;

// None of more places, or where the input ends before the last.
fn read_part<R: Read>(input: &mut R, count: usize) -> io::Result<Option<Part>> {
    if MOST_PLACES < count {
        return Ok(None);
    }
    let mut reals = [0.0; 64];
    let mut imags = [0.0; 64];
    if fill(input, &mut reals[..count])? && fill(input, &mut imags[..count])? {
        return Ok(Some(Part {
            reals,
            imags,
            count,
        }));
    }
    Ok(None)
}

pub(crate) fn read_floats<R: Read>(
    input: &mut R,
    first: usize,
    count: usize,
) -> io::Result<Option<Floats>> {
    // Before anything is read: a case that is too large is told at once.
    if MOST_PLACES < first || MOST_PLACES < count {
        return Ok(None);
    }
    let Some(first) = read_part(input, first)? else {
        return Ok(None);
    };
    let Some(second) = read_part(input, count)? else {
        return Ok(None);
    };
    let Some(wanted) = read_part(input, count)? else {
        return Ok(None);
    };
    Ok(Some(Floats {
        first,
        second,
        wanted,
    }))
}

// Bit for bit.
// Stays: cut_streams has it too, and says why.
pub(crate) fn differ(found: &[f64], wanted: &[f64]) -> bool {
    found
        .iter()
        .zip(wanted)
        .any(|(x, y)| bits_of(*x) != bits_of(*y))
}
