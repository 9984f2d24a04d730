// Bytes of a reader into a buffer of a fixed size.
#![tactic(auto)]

ghost use Rattle.std.specs.Prelude.{ℕ, ◌<◌, length, take, IfOk, OnErr};
ghost use Rattle.std.specs.Io.{ReadsAtMost};
ghost use Rattle.std.specs.Io.KnownBytes.{Consumes, IsAtEnd};

use std::io;
use std::io::Read;

// Reads until the buffer is full or the input ends, and tells how many bytes stand at the start of the buffer. Where a read fails, those that came before it
// stand there, and it is not told how many.
pub fn read_full<R: Read>(input: &mut R, buf: &mut [u8]) -> io::Result<usize>
    ensures in_bounds { ReadsAtMost result buf.new }
    ensures bytes { IfOk result (λ n. Consumes (R.remaining input.old) (R.remaining input.new) (take n buf.new)) }
    ensures end { IfOk result (λ n. n < length buf.new → IsAtEnd (R.remaining input.new)) }
    ensures err { OnErr result ((n : ℕ) × (n < length buf.new)
        × Consumes (R.remaining input.old) (R.remaining input.new) (take n buf.new)) }
{
    // Stays: it goes on by what a read gave.
    let mut done = 0;
    while done < buf.len() {
        let n = input.read(&mut buf[done..])?;
        if n == 0 {
            break;
        }
        done += n;
    }
    Ok(done)
}

#[cfg(test)]
mod tests {
    use super::read_full;
    use std::io;
    use std::io::Read;

    // A reader in two pieces, read over their seam and then to its end.
    #[test]
    fn reads_over_a_seam(rt: HostRuntime) -> io::Result<()> {
        let mut input = (&b"ab"[..]).chain(&b"cde"[..]);
        let mut buf = [0u8; 4];
        assert_eq!(rt; read_full(&mut input, &mut buf)?, 4);
        assert_eq!(rt; &buf[..], &b"abcd"[..]);
        assert_eq!(rt; read_full(&mut input, &mut buf)?, 1);
        assert_eq!(rt; buf[0], b'e');
        assert_eq!(rt; read_full(&mut input, &mut buf)?, 0);
        Ok(())
    }
}
