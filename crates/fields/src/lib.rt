// Fields of a gate record, each at the start of the bytes: what it holds and what follows it, or none where it is not there as listed.
#![tactic(auto)]

ghost use Rattle.std.specs.Prelude.{◌≡◌, ℕ, ◌+◌, ◌*◌, ◌^◌, ◌≤◌, ◌<◌, true, false, ◌&&◌, leb, length, MatchOption};
ghost use Rattle.book.specs.Records.{starts, number, float, read_angles, last};
ghost use Rattle.fields.specs.Fields.{Holds, two_floats};

use book::Angles;
use heads::{field, number};

// A number has at most so many bytes.
const WIDEST: usize = 8;

// The field of one number. A field of more than 8 bytes holds none.
pub fn number_field(bytes: &[u8], tag: u8, width: usize) -> Option<(u64, &[u8])>
    ensures is { MatchOption result (leb width 8 && starts tag width bytes.now ≡ false) (λ p. Holds number tag width bytes.now p.0 p.1.now) }
    ensures small { MatchOption result (Unit {0}) (λ p. p.0 < 256 ^ width) }
    ensures narrow { MatchOption result (Unit {0}) (λ p. leb width 8 ≡ true) }
{
    if WIDEST < width {
        return None;
    }
    let (contents, rest) = field(bytes, tag, width)?;
    Some((number(contents), rest))
}

// The f64 that is i floats behind the start.
fn float_at(contents: &[u8], i: usize) -> f64
    requires { (i < 8) × (8 * i + 8 ≤ length contents.now) }
    ensures { result ≡ float contents.now i }
{
    wire::float_of(number(&contents[8 * i..8 * i + 8]))
}

// The field of two floats.
pub fn pair_field(bytes: &[u8], tag: u8) -> Option<((f64, f64), &[u8])>
    ensures { MatchOption result (starts tag 16 bytes.now ≡ false) (λ p. Holds two_floats tag 16 bytes.now p.0 p.1.now) }
{
    let (contents, rest) = field(bytes, tag, 16)?;
    Some(((float_at(contents, 0), float_at(contents, 1)), rest))
}

// The eight floats of U.
fn angles_of(contents: &[u8]) -> Angles
    requires { 64 ≤ length contents.now }
    ensures { result ≡ read_angles contents.now }
{
    Angles {
        ct: float_at(contents, 0),
        st: float_at(contents, 1),
        cl: float_at(contents, 2),
        sl: float_at(contents, 3),
        cpl: float_at(contents, 4),
        spl: float_at(contents, 5),
        cp: float_at(contents, 6),
        sp: float_at(contents, 7),
    }
}

// The field of eight floats.
pub fn angles_field(bytes: &[u8], tag: u8) -> Option<(Angles, &[u8])>
    ensures { MatchOption result (starts tag 64 bytes.now ≡ false) (λ p. Holds read_angles tag 64 bytes.now p.0 p.1.now) }
{
    let (contents, rest) = field(bytes, tag, 64)?;
    Some((angles_of(contents), rest))
}

// This, if nothing follows.
pub fn last<T: Copy>(rest: &[u8], it: T) -> Option<T>
    ensures { result ≡ last rest.now it }
{
    if rest.is_empty() { Some(it) } else { None }
}
