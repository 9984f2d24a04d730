// The program over slices, piece by piece: bench_run reads and writes, and does all between by these functions. Crate whole_run puts them together.
#![tactic(auto)]

ghost use Rattle.std.specs.Prelude.{◌≡◌, ◌+◌, ◌%◌, ◌^◌, ◌≤◌, length};
ghost use Rattle.book.specs.Answers.{buffers};
ghost use Rattle.book.specs.Lent.{before, after};
ghost use Rattle.feeding.specs.Feeding.{form_of, rest_in, cuts, told_of};
ghost use Rattle.printing.specs.Printed.{answer_lines, closing};
ghost use Rattle.puts.specs.Put.{Put};
ghost use Rattle.program.specs.Program.{fresh, run_of, Prints};

use act::Engine;
use book::Reply;
use feeding::{Feed, take_piece};
use once::next_size;
use printing::{put_answer, put_closing};
use sessions::Session;

// The most bytes that are read at a time, and what has room for all that they print, and for the state: a line has at most 128 bytes, a delivery at least one.
pub const PIECE: usize = 2048;

pub const OUT: usize = 262400;

// What is known between two pieces: the form, and the number of the next delivery.
#[derive(Clone, Copy)]
pub struct Running {
    pub feed: Feed,
    pub index: u64,
}

// The same behind a piece, and where its lines end in the buffer.
#[derive(Clone, Copy)]
pub struct Printed {
    pub next: Running,
    pub at: usize,
}

// Where the next line begins, and its number.
#[derive(Clone, Copy)]
struct Placed {
    at: usize,
    index: u64,
}

// A session that starts, behind the header.
pub fn start(n: u32, number: u32) -> Running
    ensures { run_of result ≡ fresh n number }
{
    let feed = Feed::start(Session::fresh(n, number));
    Running { feed, index: 0 }
}

// The line of what was told, if anything was.
// Stays: a place in the buffer, as in puts.
fn put_told(out: &mut [u8], at: usize, index: u64, told: Option<Reply>, count: u16) -> Placed
    requires { at ≤ length out.old }
    ensures put { Put (answer_lines index (told_of told count)) out.old at result.at out.new }
    ensures index { result.index ≡ (index + length (told_of told count)) % 2 ^ 64 }
{
    let Some(reply) = told else {
        return Placed { at, index };
    };
    let next = put_answer(out, at, index, reply, count);
    Placed {
        at: next,
        index: index.wrapping_add(1),
    }
}

// All of a piece: its deliveries are made, and their lines are put behind a place of the output as far as it goes.
pub fn put_piece<E: Engine>(
    from: Running,
    piece: &[u8],
    out: &mut [u8],
    behind: usize,
    reals: &mut [f64],
    imags: &mut [f64],
) -> Printed
    ensures { Prints (run_of from) (before reals imags) piece.now out.old behind
        (run_of result.next) (after reals imags) result.at out.new }
{
    let Feed {
        mut session,
        mut kept,
        mut held,
    } = from.feed;
    let mut index = from.index;
    let mut at = next_size(behind, out.len());
    // Stays: it goes on by what a call used. And the form's parts side by side: by value its 97 bytes would be copied for each frame.
    let mut rest = piece;
    while !rest.is_empty() {
        let fed = take_piece::<E>(session, kept, &mut held, rest, reals, imags);
        session = fed.session;
        kept = fed.kept;
        let placed = put_told(out, at, index, fed.told, session.count);
        at = placed.at;
        index = placed.index;
        rest = rest.split_at(fed.used).1;
    }
    let feed = Feed {
        session,
        kept,
        held,
    };
    Printed {
        next: Running { feed, index },
        at,
    }
}

// What stands behind the last delivery.
pub fn put_end(end: Running, reals: &[f64], imags: &[f64], out: &mut [u8], at: usize) -> usize
    ensures { Put (closing (cuts (rest_in (form_of end.feed))) (form_of end.feed).session (buffers reals.now imags.now))
        out.old at result out.new }
{
    let feed = end.feed;
    let session = feed.session;
    put_closing(
        out,
        at,
        feed.is_cut(),
        session.count,
        session.mark,
        reals,
        imags,
    )
}
