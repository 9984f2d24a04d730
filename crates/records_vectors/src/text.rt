// Text to standard output, piece by piece: the lines are few, and a buffer would go through every function that tells.
use std::io;

pub fn text(rt: &impl Print, text: &str) -> io::Result<()> {
    print!(rt; "{text}")
}

// A blank and a number.
pub fn number(rt: &impl Print, n: u32) -> io::Result<()> {
    print!(rt; " {n}")
}

// A blank and the bits of an f64.
fn bits(rt: &impl Print, x: f64) -> io::Result<()> {
    print!(rt; " {:016x}", wire::bits_of(x))
}

// So many, as far as there are.
pub fn floats(rt: &impl Print, numbers: &[f64], count: usize) -> io::Result<()> {
    for x in numbers.iter().take(count) {
        bits(rt, *x)?;
    }
    Ok(())
}

fn byte_digits(rt: &impl Print, byte: u8) -> io::Result<()> {
    print!(rt; "{byte:02x}")
}

// Bytes as hex digits, two for each.
pub fn hex(rt: &impl Print, bytes: &[u8]) -> io::Result<()> {
    for byte in bytes {
        byte_digits(rt, *byte)?;
    }
    Ok(())
}
