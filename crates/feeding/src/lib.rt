// A form that takes bytes as they come, and makes each delivery when its frame is complete: it takes itself and a piece, and hands back the next one.
// Stays: two buffers side by side, and pieces as bytes with their lengths: C lends the buffers so, and docs/PROMISES.md names the calls.
#![tactic(auto)]

ghost use Rattle.std.specs.Prelude.{◌≡◌, ◌++◌, ◌≤◌, length, drop, replicate};
ghost use Rattle.book.specs.Lent.{before, after};
ghost use Rattle.once.specs.AllOnce.{cut};
ghost use Rattle.sessions.specs.Deliveries.{meant};
ghost use Rattle.feeding.specs.Feeding.{form, form_of, rest_in, cuts, told_of, Joins, Makes, Takes, joined, Filled, Went, Fills};

use act::Engine;
use answers::tell_reply;
use book::Reply;
use gathering::{Due, Gathered, STOPPED, gather};
use once::next_size;
use sessions::Session;
use words::add;

// A session, and what is kept of the stream between two pieces: at most 97 bytes, and a number (crate gathering says which, and why it is one).
#[derive(Clone, Copy)]
pub struct Feed {
    pub session: Session,
    pub kept: u32,
    pub held: [u8; 97],
}

// A call hands back the next form, how many bytes of the piece it used, and what its delivery was answered, if it made one. The bytes behind those are for
// the next call.
#[derive(Clone, Copy)]
pub struct Taken {
    pub next: Feed,
    pub used: usize,
    pub told: Option<Reply>,
}

// The same for a caller who keeps the 97 bytes.
// Stays: beside Taken: C keeps the 97 bytes, and lends them.
#[derive(Clone, Copy)]
pub struct Stepped {
    pub session: Session,
    pub kept: u32,
    pub used: usize,
    pub told: Option<Reply>,
}

// The delivery of a frame's contents, which used so many bytes of the piece. Behind a frame nothing is kept.
fn make<E: Engine>(
    session: Session,
    used: usize,
    contents: &[u8],
    reals: &mut [f64],
    imags: &mut [f64],
) -> Stepped
    ensures { Makes (meant session) (before reals imags) contents.now used result (after reals imags) }
{
    let delivered = session.deliver::<E>(contents, reals, imags);
    Stepped {
        session: delivered.next,
        kept: 0,
        used,
        told: Some(delivered.reply),
    }
}

// A frame that came in two parts: they are put together.
fn make_joined<E: Engine>(
    session: Session,
    first: &[u8],
    last: &[u8],
    reals: &mut [f64],
    imags: &mut [f64],
) -> Stepped
    requires { Joins first.now last.now }
    ensures { Makes (meant session) (before reals imags) (drop 3 (first.now ++ last.now)) (length last.now) result
        (after reals imags) }
{
    let mut frame = [0u8; 97];
    let have = add(&mut frame, 0, first);
    let end = add(&mut frame, have, last);
    make::<E>(session, last.len(), &frame[3..end], reals, imags)
}

// One step: the piece is used up to the end of the first frame that it completes, and that is delivered; all of it where it completes none.
// A frame that stands whole in its piece is delivered from there.
pub fn take_piece<E: Engine>(
    session: Session,
    kept: u32,
    held: &mut [u8; 97],
    piece: &[u8],
    reals: &mut [f64],
    imags: &mut [f64],
) -> Stepped
    ensures { Takes (form (meant session) kept held.old) (before reals imags) piece.now result.used
        (told_of result.told result.session.count) (form (meant result.session) result.kept held.new) (after reals imags) }
{
    let Gathered {
        used,
        kept: next,
        due,
    } = gather(held, kept, piece);
    match due {
        Due::Nothing => {
            if next < STOPPED {
                add(held, kept as usize, piece);
            }
            Stepped {
                session,
                kept: next,
                used,
                told: None,
            }
        }
        Due::Frame(len) => {
            let end = 3 + len;
            if used < end {
                let all = &held[..];
                return make_joined::<E>(session, &all[..end - used], &piece[..used], reals, imags);
            }
            make::<E>(session, used, &piece[3..end], reals, imags)
        }
        Due::TooLong => make::<E>(session, used, &piece[..0], reals, imags),
    }
}

// Between two pieces whose answers are stored in a list: how many of its places are filled.
#[derive(Clone, Copy)]
struct Filling {
    session: Session,
    kept: u32,
    filled: usize,
}

// What was told goes into the list as one number, where it has room.
fn fill(told: Option<Reply>, count: u16, filled: usize, answers: &mut [u32]) -> usize
    requires { filled ≤ length answers.old }
    ensures { Filled answers.old filled (told_of told count) result answers.new }
{
    let Some(reply) = told else {
        return filled;
    };
    if filled < answers.len() {
        answers[filled] = tell_reply(reply) * 65536 + u32::from(count);
        return filled + 1;
    }
    filled
}

// All of a piece, step by step.
// Stays: a `while`: it goes on by what a call used.
fn take_whole<E: Engine>(
    from: Filling,
    held: &mut [u8; 97],
    piece: &[u8],
    answers: &mut [u32],
    reals: &mut [f64],
    imags: &mut [f64],
) -> Filling
    requires { from.filled ≤ length answers.old }
    ensures { Went (form (meant from.session) from.kept held.old) (before reals imags) piece.now
        from.filled answers.old (form (meant result.session) result.kept held.new) (after reals imags)
        result.filled answers.new }
{
    let mut session = from.session;
    let mut kept = from.kept;
    let mut filled = from.filled;
    let mut rest = piece;
    while !rest.is_empty() {
        let fed = take_piece::<E>(session, kept, held, rest, reals, imags);
        session = fed.session;
        kept = fed.kept;
        filled = fill(fed.told, session.count, filled, answers);
        rest = rest.split_at(fed.used).1;
    }
    Filling {
        session,
        kept,
        filled,
    }
}

impl Feed {
    // Behind the header nothing is kept.
    pub fn start(session: Session) -> Feed
        ensures { form_of result ≡ form (meant session) 0 (replicate 97 0) }
    {
        Feed {
            session,
            kept: 0,
            held: [0; 97],
        }
    }

    pub fn take<E: Engine>(self, piece: &[u8], reals: &mut [f64], imags: &mut [f64]) -> Taken
        ensures { Takes (form_of self) (before reals imags) piece.now result.used (told_of result.told result.next.session.count)
            (form_of result.next) (after reals imags) }
    {
        let mut held = self.held;
        let fed = take_piece::<E>(self.session, self.kept, &mut held, piece, reals, imags);
        Taken {
            next: Feed {
                session: fed.session,
                kept: fed.kept,
                held,
            },
            used: fed.used,
            told: fed.told,
        }
    }

    // Whether the end of the input here is CUT: inside a frame, or behind a wrong tag.
    pub fn is_cut(self) -> bool
        ensures { result ≡ cuts (rest_in (form_of self)) }
    {
        self.kept != 0
    }

    // Pieces one after the other, which lie so in `bytes`; `lengths` says how many bytes each takes.
    // Each answer is stored as one number, as far as the list goes.
    pub fn take_all<E: Engine>(
        self,
        bytes: &[u8],
        lengths: &[usize],
        answers: &mut [u32],
        reals: &mut [f64],
        imags: &mut [f64],
    ) -> Feed
        ensures { Fills (form_of self) (before reals imags) (joined (cut bytes.now lengths.now))
            answers.old answers.new (form_of result) (after reals imags) }
    {
        let mut held = self.held;
        let mut filling = Filling {
            session: self.session,
            kept: self.kept,
            filled: 0,
        };
        let mut rest = bytes;
        for asked in lengths {
            let (piece, behind) = rest.split_at(next_size(*asked, rest.len()));
            filling = take_whole::<E>(filling, &mut held, piece, answers, reals, imags);
            rest = behind;
        }
        Feed {
            session: filling.session,
            kept: filling.kept,
            held,
        }
    }
}
