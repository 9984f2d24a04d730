// A record's numbers from its bytes, and its bytes from the numbers, each told as one number: what the archive's two calls do.
#![tactic(auto)]

ghost use Rattle.book.specs.Records.{read_record};
ghost use Rattle.from_flat.specs.Records.{record_of};
ghost use Rattle.spelling.specs.Spelling.{Reads, Writes};

use answers::TAKEN;
use flat::put_record;
use from_flat::record_of;
use reader::read_record;
use writer::write_record;

// The bytes as a record: 8 if they are none; then 12 if fewer places are lent than a record's numbers take.
// Stays: no plainer: two tests, here and below: an inner function that answers by ? would say the contract of each call once more, of its Result.
pub fn read_numbers(bytes: &[u8], fields: &mut [u32], numbers: &mut [f64]) -> u32
    ensures { Reads (read_record bytes.now) fields.old numbers.old result fields.new numbers.new }
{
    let it = match read_record(bytes) {
        Ok(it) => it,
        Err(refusal) => return u32::from(refusal),
    };
    match put_record(it, fields, numbers) {
        Ok(()) => TAKEN,
        Err(refusal) => u32::from(refusal),
    }
}

// The record's bytes: 8 if the numbers are no record's; then how many bytes, or 12.
pub fn write_numbers(fields: &[u32], numbers: &[f64], out: &mut [u8]) -> u32
    ensures { Writes (record_of fields.now numbers.now) out.old result out.new }
{
    let it = match record_of(fields, numbers) {
        Ok(it) => it,
        Err(refusal) => return u32::from(refusal),
    };
    match write_record(it, out) {
        Ok(size) => size as u32,
        Err(refusal) => u32::from(refusal),
    }
}
