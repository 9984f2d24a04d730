// The fields behind 04, by their shape, stored from a place on.
// An inner room: its function asks for room, and its caller is proved.
#![tactic(auto)]

ghost use Rattle.std.specs.Prelude.{◌+◌, ◌≤◌, length};
ghost use Rattle.book.specs.Records.{mask_field, fields_of};
ghost use Rattle.stores.specs.Stores.{Stored};

use book::{Controls, Shape};
use stores::{store_floats_field, store_number_field};

// Field 05.
// Stays: a place in the buffer, as in stores.
fn store_mask(out: &mut [u8], at: usize, controls: Controls) -> usize
    requires { at + 7 ≤ length out.old }
    ensures { Stored (mask_field controls) out.old at result out.new }
{
    store_number_field(out, at, 0x05, 4, controls.ones as u64)
}

// The fields behind 04.
pub fn store_shape(out: &mut [u8], at: usize, shape: Shape) -> usize
    requires { at + length (fields_of shape) ≤ length out.old }
    ensures { Stored (fields_of shape) out.old at result out.new }
{
    match shape {
        Shape::Plain(c) => store_mask(out, at, c),
        Shape::Angled(c, a) => {
            let next = store_mask(out, at, c);
            let numbers = [a.cosine, a.sine];
            store_floats_field(out, next, 0x07, &numbers)
        }
        Shape::Eight(c, g) => {
            let next = store_mask(out, at, c);
            let numbers = [g.ct, g.st, g.cl, g.sl, g.cpl, g.spl, g.cp, g.sp];
            store_floats_field(out, next, 0x08, &numbers)
        }
        Shape::Second(u) => store_number_field(out, at, 0x06, 1, u as u64),
        Shape::Forced(f) => {
            let both = f.outcome as u64 * 256 + f.reset as u64;
            store_number_field(out, at, 0x09, 2, both)
        }
        Shape::Noisy(n) => {
            let numbers = [n.prob, n.draw];
            store_floats_field(out, at, 0x0a, &numbers)
        }
    }
}
