// The writer of gate records: it touches only the record's bytes and answers how many they are, or refuses with 12 and touches nothing.
#![tactic(auto)]

ghost use Rattle.std.specs.Prelude.{◌≡◌, ◌+◌, ◌≤◌, length};
ghost use Rattle.book.specs.Answers.{gives_of};
ghost use Rattle.book.specs.Records.{wrote_of, left_by, fields_of};
ghost use Rattle.stores.specs.Stores.{Stored};
ghost use Rattle.writer.specs.Heads.{head_of};

use book::{Parts, Record, Refusal, Shape};
use shapes::parts_of;
use stores::store_number_field;
use storing::store_shape;

// The bytes of fields 01 to 04.
const HEAD: usize = 20;

// Tag and length of a field.
const START: usize = 3;

// Field 05, a field of two floats, and one of eight.
const MASK: usize = START + 4;

const PAIR: usize = START + 16;

const EIGHT: usize = START + 64;

// How many bytes a record of this shape has.
fn size_of(shape: Shape) -> usize
    ensures { result ≡ 20 + length (fields_of shape) }
{
    match shape {
        Shape::Plain(_) => HEAD + MASK,
        Shape::Angled(_, _) => HEAD + MASK + PAIR,
        Shape::Eight(_, _) => HEAD + MASK + EIGHT,
        Shape::Second(_) => HEAD + START + 1,
        Shape::Forced(_) => HEAD + START + 2,
        Shape::Noisy(_) => HEAD + PAIR,
    }
}

// Fields 01 to 04.
// Stays: a code is a number here, as it goes among the bytes.
fn store_head(out: &mut [u8], session: u32, number: u16, code: u8, target: u8) -> usize
    requires { 20 ≤ length out.old }
    ensures { Stored (head_of session number code target) out.old 0 result out.new }
{
    let at_number = store_number_field(out, 0, 0x01, 4, session as u64);
    let at_code = store_number_field(out, at_number, 0x02, 2, number as u64);
    let at_target = store_number_field(out, at_code, 0x03, 1, code as u64);
    store_number_field(out, at_target, 0x04, 1, target as u64)
}

pub fn write_record(it: Record, out: &mut [u8]) -> Result<usize, Refusal>
    ensures answers { gives_of result ≡ wrote_of it out.old }
    ensures leaves { out.new ≡ left_by it out.old }
{
    let Parts {
        code,
        target,
        shape,
    } = parts_of(it.gate);
    if out.len() < size_of(shape) {
        return Err(Refusal::Room);
    }
    let behind = store_head(out, it.session, it.number, code, target);
    Ok(store_shape(out, behind, shape))
}
