// The whole program over slices: from all bytes of the input to all bytes that are printed, in pieces as bench_run reads them.
#![tactic(auto)]

ghost use Rattle.std.specs.Prelude.{[], ◌≡◌, ◌≤◌};
ghost use Rattle.book.specs.Lent.{before, after};
ghost use Rattle.book.specs.Sessions as Book;
ghost use Rattle.feeding.specs.Feeding.{rest_in};
ghost use Rattle.first_state.specs.First.{first_state};
ghost use Rattle.frames.specs.Streams.{begun};
ghost use Rattle.puts.specs.Put.{Put};
ghost use Rattle.program.specs.Program.{lines_of, printed, run_of, Prints};

use act::Engine;
use first_state::{MOST_PLACES, first_reals};
use headers::{Header, behind_header, read_header};
use printing::put_bad_header;
use program::{PIECE, Printed, Running, put_end, put_piece, start};

// Piece after piece, as bench_run reads them.
fn put_pieces<E: Engine>(
    from: Running,
    bytes: &[u8],
    out: &mut [u8],
    reals: &mut [f64],
    imags: &mut [f64],
) -> Printed
    ensures { Prints (run_of from) (before reals imags) bytes.now out.old 0
        (run_of result.next) (after reals imags) result.at out.new }
{
    let mut next = from;
    let mut at: usize = 0;
    for piece in bytes.chunks(PIECE) {
        let printed = put_piece::<E>(next, piece, out, at, reals, imags);
        next = printed.next;
        at = printed.at;
    }
    Printed { next, at }
}

// The frames' lines, and those behind them, of a run that begins here.
fn put_lines<E: Engine>(
    from: Running,
    frames: &[u8],
    out: &mut [u8],
    reals: &mut [f64],
    imags: &mut [f64],
) -> usize
    ensures { (run_of from).index ≡ 0 → rest_in (run_of from).form ≡ begun []
        → Put (lines_of (run_of from).form.session (before reals imags) frames.now) out.old 0 result out.new }
{
    let printed = put_pieces::<E>(from, frames, out, reals, imags);
    put_end(printed.next, reals, imags, out, printed.at)
}

// In the places of n qubits.
fn put_run<E: Engine>(header: Header, frames: &[u8], out: &mut [u8]) -> usize
    ensures { Put (lines_of (Book.fresh header.n header.session) (first_state header.n) frames.now) out.old 0 result out.new }
{
    let size: usize = 1 << header.n;
    let mut reals = first_reals();
    let mut imags = [0.0; MOST_PLACES];
    put_lines::<E>(
        start(header.n, header.session),
        frames,
        out,
        &mut reals[0..size],
        &mut imags[0..size],
    )
}

// From the whole input to the whole output, as far as the buffer goes: what the program prints. The answer is how many bytes stand there.
pub fn print_all<E: Engine>(input: &[u8], out: &mut [u8]) -> usize
    ensures { Put (printed input.now) out.old 0 result out.new }
{
    match read_header(input) {
        Some(header) => put_run::<E>(header, behind_header(input), out),
        None => put_bad_header(out, 0),
    }
}
