// Bytes, numbers, floats and fields stored from a place on; each function answers the place behind what it stored.
// An inner room: its callers, the writer and the printer of lines, are proved to leave the room that each function asks.
#![tactic(auto)]

ghost use Rattle.std.specs.Prelude.{◌+◌, ◌*◌, ◌^◌, ◌≤◌, ◌<◌, ◌∷◌, length};
ghost use Rattle.book.specs.Records.{bytes, floats, field};
ghost use Rattle.stores.specs.Stores.{Stored};

// Stays: a place in the buffer, and not its rest: the writer answers how many bytes there are, which is the last place; a rest would keep the buffer lent.
pub fn store(out: &mut [u8], at: usize, bytes: &[u8]) -> usize
    requires { at + length bytes.now ≤ length out.old }
    ensures { Stored bytes.now out.old at result out.new }
{
    out[at..at + bytes.len()].copy_from_slice(bytes);
    at + bytes.len()
}

// A number in as many bytes as the width, the highest first.
fn store_number(out: &mut [u8], at: usize, width: usize, n: u64) -> usize
    requires { (width ≤ 8) × (n < 256 ^ width) × (at + width ≤ length out.old) }
    ensures { Stored (bytes width n) out.old at result out.new }
{
    store(out, at, &n.to_be_bytes()[8 - width..])
}

// A field's tag and length.
fn store_start(out: &mut [u8], at: usize, tag: u8, len: usize) -> usize
    requires { (len < 65536) × (at + 3 ≤ length out.old) }
    ensures { Stored (tag ∷ bytes 2 len) out.old at result out.new }
{
    let at_len = store(out, at, &[tag]);
    store_number(out, at_len, 2, len as u64)
}

// A field of one number.
pub fn store_number_field(out: &mut [u8], at: usize, tag: u8, width: usize, n: u64) -> usize
    requires { (width ≤ 8) × (n < 256 ^ width) × (at + (3 + width) ≤ length out.old) }
    ensures { Stored (field tag (bytes width n)) out.old at result out.new }
{
    let at_number = store_start(out, at, tag, width);
    store_number(out, at_number, width, n)
}

// Floats, each as its bits.
fn store_floats(out: &mut [u8], at: usize, numbers: &[f64]) -> usize
    requires { at + 8 * length numbers.now ≤ length out.old }
    ensures { Stored (floats numbers.now) out.old at result out.new }
{
    let mut next = at;
    for x in numbers {
        next = store_number(out, next, 8, wire::bits_of(*x));
    }
    next
}

// A field of floats, at most the eight of U.
pub fn store_floats_field(out: &mut [u8], at: usize, tag: u8, numbers: &[f64]) -> usize
    requires { (length numbers.now ≤ 8) × (at + (3 + 8 * length numbers.now) ≤ length out.old) }
    ensures { Stored (field tag (floats numbers.now)) out.old at result out.new }
{
    let at_floats = store_start(out, at, tag, 8 * numbers.len());
    store_floats(out, at_floats, numbers)
}
