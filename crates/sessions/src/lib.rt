// Sessions: each delivery takes the session and hands back the next one, with the answer. However often a record comes, it is run once.
#![tactic(auto)]

ghost use Rattle.std.specs.Prelude.{◌≡◌};
ghost use Rattle.book.specs.Answers.{replies, or_denied};
ghost use Rattle.book.specs.Lent.{before, after, shown};
ghost use Rattle.book.specs.Sessions.{deliver};
ghost use Rattle.book.specs.Sessions as Book;
ghost use Rattle.once.specs.AllOnce.{cut, AllOnce};
ghost use Rattle.sessions.specs.Deliveries.{meant, started_says, resumed, told, unsized, Delivers};

use act::Engine;
use book::{MOST_QUBITS, Refusal, Reply};
use counting::Counted;
use once::next_size;
use standing::stand;

// n qubits, the session's number, the count of records taken, the value of the last of them, and the mark over their bytes.
#[derive(Clone, Copy, PartialEq)]
pub struct Session {
    pub n: u32,
    pub number: u32,
    pub count: u16,
    pub value: Option<u8>,
    pub mark: u32,
}

// A delivery hands back the next session, its reply, and the count after it.
#[derive(Clone, Copy)]
pub struct Delivered {
    pub next: Session,
    pub reply: Reply,
    pub count: u16,
}

impl Session {
    // The one place where a session is made: from what a caller kept of it.
    pub fn resume(n: u32, number: u32, count: u16, value: Option<u8>, mark: u32) -> Session
        ensures { result ≡ resumed n number count value mark }
    {
        Session {
            n,
            number,
            count,
            value,
            mark,
        }
    }

    // As it starts, for any n.
    pub fn fresh(n: u32, number: u32) -> Session
        ensures { meant result ≡ Book.fresh n number }
    {
        Session::resume(n, number, 0, None, 0)
    }

    pub fn start(n: u32, number: u32) -> Result<Session, Refusal>
        ensures { started_says result ≡ or_denied 1 (Book.start n number) }
    {
        if n < 1 || MOST_QUBITS < n {
            return Err(Refusal::Size);
        }
        Ok(Session::fresh(n, number))
    }

    // The next session, and the answer, which carries the count after it.
    fn told(self, counted: Counted) -> Delivered
        ensures { result ≡ told self counted }
    {
        let Counted {
            count,
            value,
            mark,
            reply,
        } = counted;
        let next = Session::resume(self.n, self.number, count, value, mark);
        Delivered { next, reply, count }
    }

    // A record that is not run: 1 and 2 come before its reply.
    fn passed(self, reply: Reply, reals: &[f64], imags: &[f64]) -> Delivered
        ensures { Delivers (unsized (meant self) (shown reals imags) (replies reply)) result (shown reals imags) }
    {
        let size = judging::size(reals, imags, self.n);
        self.told(counting::passed(self.count, self.value, self.mark, size, reply))
    }

    // Only the next record goes on to its gate, whose own tests begin with 1 and 2: so a delivery is judged once.
    pub fn deliver<E: Engine>(self, bytes: &[u8], reals: &mut [f64], imags: &mut [f64]) -> Delivered
        ensures { Delivers (deliver (meant self) (before reals imags) bytes.now) result (after reals imags) }
    {
        let Ok(it) = reader::read_record(bytes) else {
            return self.passed(Reply::Said(Err(Refusal::Record)), reals, imags);
        };
        match stand(self.number, self.count, self.value, it) {
            Ok(next) => {
                let answer = E::run(self.n, it.gate, reals, imags);
                self.told(counting::ran(self.count, self.value, self.mark, next, bytes, answer))
            }
            Err(reply) => self.passed(reply, reals, imags),
        }
    }

    // Deliveries one after the other, which lie so in `bytes`; `lengths` says how many bytes each takes. Whatever comes, each record is run once.
    // Stays: bytes and their lengths side by side: docs/PROMISES.md names the call, whose contract is of `cut bytes lengths`.
    pub fn deliver_all<E: Engine>(
        self,
        bytes: &[u8],
        lengths: &[usize],
        reals: &mut [f64],
        imags: &mut [f64],
    ) -> Session
        ensures { AllOnce (meant self) (before reals imags) (cut bytes.now lengths.now) (meant result) (after reals imags) }
    {
        let mut session = self;
        let mut rest = bytes;
        for asked in lengths {
            let (part, behind) = rest.split_at(next_size(*asked, rest.len()));
            session = session.deliver::<E>(part, reals, imags).next;
            rest = behind;
        }
        session
    }
}
