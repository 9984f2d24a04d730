// A record as six whole numbers and eight floats. Unused places are 0 and +0.0.
#![tactic(auto)]

ghost use Rattle.std.specs.Prelude.{◌≡◌, ◌≤◌, length};
ghost use Rattle.flat.specs.Numbers.{two, laid, flat_of, over, flat_fields, flat_numbers, Puts};

use book::{Angles, Parts, Record, Refusal, Shape};
use shapes::parts_of;

// How many places a record's numbers take.
const FIELDS: usize = 6;

const NUMBERS: usize = 8;

// What stands behind session, number, code and target. The floats are U's eight; another gate's stand in the first places.
#[derive(Clone, Copy)]
pub struct Flat {
    pub second: u32,
    pub reset: u32,
    pub numbers: Angles,
}

fn laid(second: u32, reset: u32, numbers: Angles) -> Flat
    ensures { result ≡ laid second reset numbers }
{
    Flat {
        second,
        reset,
        numbers,
    }
}

// A gate with two numbers at most.
fn paired(second: u32, reset: u32, x: f64, y: f64) -> Flat
    ensures { result ≡ laid second reset (two x y) }
{
    let numbers = Angles {
        ct: x,
        st: y,
        cl: 0.0,
        sl: 0.0,
        cpl: 0.0,
        spl: 0.0,
        cp: 0.0,
        sp: 0.0,
    };
    laid(second, reset, numbers)
}

fn flat_of(shape: Shape) -> Flat
    ensures { result ≡ flat_of shape }
{
    match shape {
        Shape::Plain(c) => paired(c.ones, 0, 0.0, 0.0),
        Shape::Angled(c, a) => paired(c.ones, 0, a.cosine, a.sine),
        Shape::Eight(c, g) => laid(c.ones, 0, g),
        Shape::Second(u) => paired(u as u32, 0, 0.0, 0.0),
        Shape::Forced(f) => paired(f.outcome as u32, f.reset as u32, 0.0, 0.0),
        Shape::Noisy(n) => paired(0, 0, n.prob, n.draw),
    }
}

fn put_fields(it: Record, fields: &mut [u32])
    requires { 6 ≤ length fields.old }
    ensures { fields.new ≡ over (flat_fields it) fields.old }
{
    let Parts {
        code,
        target,
        shape,
    } = parts_of(it.gate);
    let flat = flat_of(shape);
    fields[..FIELDS].copy_from_slice(&[
        it.session,
        it.number as u32,
        code as u32,
        target as u32,
        flat.second,
        flat.reset,
    ]);
}

fn put_numbers(it: Record, numbers: &mut [f64])
    requires { 8 ≤ length numbers.old }
    ensures { numbers.new ≡ over (flat_numbers it) numbers.old }
{
    let parts = parts_of(it.gate);
    let g = flat_of(parts.shape).numbers;
    numbers[..NUMBERS].copy_from_slice(&[g.ct, g.st, g.cl, g.sl, g.cpl, g.spl, g.cp, g.sp]);
}

// A record's numbers, into the first places; refusal 12 where there are too few.
#[tactic(auto, unfolding(crate::specs::Numbers::too_few))]
pub fn put_record(it: Record, fields: &mut [u32], numbers: &mut [f64]) -> Result<(), Refusal>
    ensures { Puts it fields.old numbers.old result fields.new numbers.new }
{
    if fields.len() < FIELDS || numbers.len() < NUMBERS {
        return Err(Refusal::Room);
    }
    put_fields(it, fields);
    put_numbers(it, numbers);
    Ok(())
}
