// A record's bytes from its numbers, and its numbers from the bytes.
ghost use Rattle.book.specs.Records.{read_record};
ghost use Rattle.from_flat.specs.Records.{record_of};
ghost use Rattle.spelling.specs.Spelling.{Reads, Writes};

// The bytes as a record: 8 if they are none; then 12 if fewer places are lent than a record's numbers take.
#[unsafe(no_mangle)]
pub extern "C" fn gate_bench_read_record(
    bytes: &[u8],
    fields: &mut [u32],
    numbers: &mut [f64],
) -> u32
    ensures { Reads (read_record bytes.now) fields.old numbers.old result fields.new numbers.new }
{
    spelling::read_numbers(bytes, fields, numbers)
}

// The record's bytes: 8 if the numbers are no record's; then how many bytes, or 12.
#[unsafe(no_mangle)]
pub extern "C" fn gate_bench_write_record(fields: &[u32], numbers: &[f64], out: &mut [u8]) -> u32
    ensures { Writes (record_of fields.now numbers.now) out.old result out.new }
{
    spelling::write_numbers(fields, numbers, out)
}
