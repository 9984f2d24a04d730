// Lines of hex digits.
ghost use Rattle.std.specs.Prelude.{◌≤◌, length, IfOk, IfSome};

use reading::read_full;
use std::io;
use std::io::Read;

// No line has more bytes.
pub(crate) const MOST: usize = 128;

// What stands next in the input.
enum Next {
    Digit(u8),
    LineFeed,
    End,
}

fn value(byte: u8) -> u8 {
    if byte < b'a' {
        return byte % 16;
    }
    (byte - b'a' + 10) % 16
}

fn read_next<R: Read>(input: &mut R) -> io::Result<Next> {
    let mut bytes = [0u8; 1];
    if read_full(input, &mut bytes)? == 0 {
        return Ok(Next::End);
    }
    match bytes[0] {
        b'\n' => Ok(Next::LineFeed),
        byte => Ok(Next::Digit(value(byte))),
    }
}

// A byte's low digit: 0 where the line ends before it, and 1 where the input does.
fn read_low<R: Read>(input: &mut R) -> io::Result<u8> {
    match read_next(input)? {
        Next::Digit(low) => Ok(low),
        Next::LineFeed => Ok(0),
        Next::End => Ok(1),
    }
}

// How many bytes the next line has, or none behind the last.
pub(crate) fn read_line<R: Read>(input: &mut R, line: &mut [u8]) -> io::Result<Option<usize>>
    ensures { IfOk result (λ read. IfSome read (λ n. n ≤ length line.new)) }
{
    for len in 0..line.len() {
        match read_next(input)? {
            Next::Digit(high) => line[len] = high % 16 * 16 + read_low(input)? % 16,
            Next::LineFeed => return Ok(Some(len)),
            Next::End => return Ok(None),
        }
    }
    Ok(Some(line.len()))
}
