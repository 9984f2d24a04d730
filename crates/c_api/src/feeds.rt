// A stream of frames in pieces. What is kept between two of them is the caller's: the session, a number, and 97 bytes.
ghost use Rattle.std.specs.Prelude.{[], ◌≡◌};
ghost use Rattle.book.specs.Lent.{before, after};
ghost use Rattle.feeding.specs.Feeding.{told_of};
ghost use Rattle.c_api.specs.Tells.{fed_number, words, TellsFeed};

use crate::deliveries::session_in;
use act::Fast;
use answers::tell_reply;
use book::Reply;
use feeding::take_piece;
use gathering::STOPPED;
use keeping::keep;

// No frame is complete, and behind a wrong tag none will be.
const WAITING: u32 = 1024;

const WAITING_NO_MORE: u32 = 1025;

fn tell_nothing(kept: u32) -> u32
    ensures { result ≡ fed_number [] kept }
{
    if kept == STOPPED {
        return WAITING_NO_MORE;
    }
    WAITING
}

// What was told of a delivery, or that there was none.
fn tell_told(told: Option<Reply>, kept: u32, count: u16) -> u32
    ensures { result ≡ fed_number (told_of told count) kept }
{
    match told {
        None => tell_nothing(kept),
        Some(reply) => tell_reply(reply),
    }
}

// The piece up to the end of the first frame that it completes.
#[unsafe(no_mangle)]
pub extern "C" fn gate_bench_feed(
    session: &mut [u32; 8],
    kept: &mut u32,
    held: &mut [u8; 97],
    piece: &[u8],
    used: &mut usize,
    reals: &mut [f64],
    imags: &mut [f64],
) -> u32
    ensures { TellsFeed (words session.old kept.old held.old) (before reals imags) piece.now
        result used.new (words session.new kept.new held.new) (after reals imags) }
{
    let fed = take_piece::<Fast>(session_in(session), *kept, held, piece, reals, imags);
    let next = fed.session;
    keep(session, next.count, next.value, next.mark);
    *kept = fed.kept;
    *used = fed.used;
    tell_told(fed.told, fed.kept, next.count)
}
