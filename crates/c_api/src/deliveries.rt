// Sessions. A session is eight words that the caller keeps (crate keeping says which); a delivery that takes a record writes it back.
ghost use Rattle.std.specs.Prelude.{◌≡◌};
ghost use Rattle.book.specs.Lent.{before, after};
ghost use Rattle.keeping.specs.Kept.{session_in};
ghost use Rattle.once.specs.AllOnce.{cut, AllOnce};
ghost use Rattle.sessions.specs.Deliveries.{meant};
ghost use Rattle.c_api.specs.Tells.{TellsStart, TellsDelivery};

use act::Fast;
use answers::{TAKEN, tell_reply};
use keeping::{begin, count_in, keep, value_in};
use once::next_size;
use sessions::Session;

// The session that these words are.
pub(crate) fn session_in(words: &[u32; 8]) -> Session
    ensures { meant result ≡ session_in words.now }
{
    Session::resume(
        words[0],
        words[1],
        count_in(words),
        value_in(words),
        words[4],
    )
}

// A session of n qubits that starts, if it can.
#[unsafe(no_mangle)]
pub extern "C" fn gate_bench_start(session: &mut [u32; 8], n: u32, number: u32) -> u32
    ensures { TellsStart n number session.old result session.new }
{
    match Session::start(n, number) {
        Ok(_) => {
            begin(session, n, number);
            TAKEN
        }
        Err(refusal) => u32::from(refusal),
    }
}

// One delivery.
#[unsafe(no_mangle)]
pub extern "C" fn gate_bench_deliver(
    session: &mut [u32; 8],
    bytes: &[u8],
    reals: &mut [f64],
    imags: &mut [f64],
) -> u32
    ensures { TellsDelivery session.old (before reals imags) bytes.now result session.new (after reals imags) }
{
    let delivered = session_in(session).deliver::<Fast>(bytes, reals, imags);
    let next = delivered.next;
    keep(session, next.count, next.value, next.mark);
    tell_reply(delivered.reply)
}

// A caller's own loop, which stands here for its contract and is not in the archive: each call has the words and the buffers that the one before left.
pub fn deliver_all(
    session: &mut [u32; 8],
    bytes: &[u8],
    lengths: &[usize],
    reals: &mut [f64],
    imags: &mut [f64],
)
    ensures { AllOnce (session_in session.old) (before reals imags) (cut bytes.now lengths.now)
        (session_in session.new) (after reals imags) }
{
    let mut rest = bytes;
    for asked in lengths {
        let (part, behind) = rest.split_at(next_size(*asked, rest.len()));
        gate_bench_deliver(session, part, reals, imags);
        rest = behind;
    }
}
