// The reader of gate records: each field hands on what follows it, and the first that is not there as listed ends the reading.
#![tactic(auto, unfolding(book::specs::Records::listed))]

ghost use Rattle.std.specs.Prelude.{◌≡◌};
ghost use Rattle.book.specs.Answers.{gives_of, or_denied};
ghost use Rattle.book.specs.Records.{read_record};

use book::{Record, Refusal};
use codes::read_gate;
use fields::number_field;

// Fields 01 to 04, and then by code.
fn read_fields(bytes: &[u8]) -> Option<Record>
    ensures { result ≡ read_record bytes.now }
{
    let (session, bytes) = number_field(bytes, 0x01, 4)?;
    let (number, bytes) = number_field(bytes, 0x02, 2)?;
    let (code, bytes) = number_field(bytes, 0x03, 1)?;
    let (target, bytes) = number_field(bytes, 0x04, 1)?;
    let gate = read_gate(bytes, code as u32, target as u8)?;
    Some(Record {
        session: session as u32,
        number: number as u16,
        gate,
    })
}

pub fn read_record(bytes: &[u8]) -> Result<Record, Refusal>
    ensures { gives_of result ≡ or_denied 8 (read_record bytes.now) }
{
    read_fields(bytes).ok_or(Refusal::Record)
}
