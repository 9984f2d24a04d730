// Frames gathered from pieces of any size: a piece may be nothing, a part of a frame, or several frames and a part. What is kept between two pieces is a number
// and at most 97 bytes. Here it is found what a piece gives first; nothing is copied.
#![tactic(auto)]

ghost use Rattle.std.specs.Prelude.{List, ◌++◌, ◌≡◌, ℕ, ◌+◌, ◌<◌, Some};
ghost use Rattle.frames.specs.Frames.{next_of};
ghost use Rattle.frames.specs.Streams.{Rest, begun, waiting as waits, complete as completes, past, step};
ghost use Rattle.frames.specs.declared.Next.TheVariants.{More};
ghost use Rattle.gathering.specs.Gathering.{rest_of, kept_of, bytes_of, due_of, IsWhole, Gathers};

use frames::{Next, next_frame};

// The number that is kept: below this, that so many bytes of a frame are held; this, that a wrong tag came; above it, how many bytes more of an over-long frame
// are still to be read past. So at most 97 bytes are held: a frame's tag, its length and 94 bytes.
// Stays: one number for the three, since a C caller keeps one number (docs/DECISIONS.md, 68).
pub const STOPPED: u32 = 97;

// What a piece completes first: no frame, one with so many bytes of contents, or one that is too long.
#[derive(Clone, Copy)]
pub enum Due {
    Nothing,
    Frame(usize),
    TooLong,
}

// How many bytes of the piece were used, what is kept behind them, and what is due.
#[derive(Clone, Copy)]
pub struct Gathered {
    pub used: usize,
    pub kept: u32,
    pub due: Due,
}

// No frame is complete, and all of the piece is used.
fn waiting(piece: &[u8], kept: u32) -> Gathered
    ensures { (rest : Rest) (bs : List ℕ) → kept ≡ kept_of rest → Gathers (waits piece.now rest) bs result }
{
    Gathered {
        used: piece.len(),
        kept,
        due: Due::Nothing,
    }
}

// A frame is complete behind so many bytes of the piece.
fn complete(used: usize, due: Due) -> Gathered
    ensures { (bs contents : List ℕ) → due_of due bs ≡ Some contents → IsWhole due bs → Gathers (completes used contents) bs result }
{
    Gathered { used, kept: 0, due }
}

// So many bytes of an over-long frame are to be read past.
fn read_past(k: usize, piece: &[u8]) -> Gathered
    requires { 97 + k < 4294967296 }
    ensures { (bs : List ℕ) → Gathers (past k piece.now) bs result }
{
    if piece.len() < k {
        return waiting(piece, STOPPED + (k - piece.len()) as u32);
    }
    complete(k, Due::TooLong)
}

// Behind the first bytes of a frame.
fn go_on(first: &[u8], piece: &[u8]) -> Gathered
    requires { next_of first.now ≡ More }
    ensures { Gathers (step (begun first.now) piece.now) (first.now ++ piece.now) result }
{
    let have = first.len();
    match next_frame(first, piece) {
        Next::Whole(len) => complete(3 + len - have, Due::Frame(len)),
        Next::Over(len) => read_past(3 + len - have, piece),
        Next::Wrong => waiting(piece, STOPPED),
        Next::More => waiting(piece, (have + piece.len()) as u32),
    }
}

// What a piece gives first, behind what is kept. Bytes that begin no frame were never kept, and count as a wrong tag.
pub fn gather(held: &[u8; 97], kept: u32, piece: &[u8]) -> Gathered
    ensures { Gathers (step (rest_of held.now kept) piece.now)
        (bytes_of (rest_of held.now kept) ++ piece.now) result }
{
    if kept == 0 {
        return go_on(&piece[..0], piece);
    }
    if STOPPED < kept {
        return read_past((kept - STOPPED) as usize, piece);
    }
    if kept == STOPPED {
        return waiting(piece, STOPPED);
    }
    let have = kept as usize;
    let all = &held[..];
    let first = &all[..have];
    match next_frame(first, &piece[..0]) {
        Next::More => go_on(first, piece),
        _ => waiting(piece, STOPPED),
    }
}
