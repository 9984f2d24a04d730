// What is written, out of what was read: a turn's lines out of its piece, and the lines at the end.
ghost use Rattle.std.specs.Prelude.{◌≤◌, length, take};
ghost use Rattle.book.specs.Answers.{buffers};
ghost use Rattle.book.specs.Lent.{before, after};
ghost use Rattle.std.specs.Io.KnownBytes.{Consumes};
ghost use Rattle.io.specs.Counts.{IsPrefixLen};
ghost use Rattle.program.specs.Program.{run_of};
ghost use Rattle.bench_run.specs.Turns.{Writes, Closes};

use act::Engine;
use program::{OUT, PIECE, Running};
use std::io::Read;

// Behind a piece: what is known, how many bytes were read, and how many are to be written.
#[derive(Clone, Copy)]
pub(crate) struct Turn {
    pub next: Running,
    pub got: usize,
    pub at: usize,
}

// A piece is read and taken; a read that fails is the end of the input. Its lines stand at the start of `out`, all of them.
pub(crate) fn take_turn<E: Engine, R: Read>(
    input: &mut R,
    from: Running,
    chunk: &mut [u8; PIECE],
    out: &mut [u8; OUT],
    reals: &mut [f64],
    imags: &mut [f64],
) -> Turn
    ensures writes { Writes (run_of from) (before reals imags) (take result.got chunk.new) (take result.at out.new)
        (run_of result.next) (after reals imags) }
    ensures counts { IsPrefixLen result.at out.new }
    ensures reads { Consumes (R.remaining input.old) (R.remaining input.new) (take result.got chunk.new) }
{
    let got = input.read(chunk).unwrap_or(0);
    let piece = &chunk[..];
    let printed = program::put_piece::<E>(from, &piece[..got], out, 0, reals, imags);
    Turn {
        next: printed.next,
        got,
        at: printed.at,
    }
}

// CUT, the A lines and END stand at the start of `out`, all of them.
pub(crate) fn closing(end: Running, reals: &[f64], imags: &[f64], out: &mut [u8; OUT]) -> usize
    requires { length reals.now ≤ 2048 }
    ensures closes { Closes (run_of end) (buffers reals.now imags.now) (take result out.new) }
    ensures counts { IsPrefixLen result out.new }
{
    program::put_end(end, reals, imags, out, 0)
}
