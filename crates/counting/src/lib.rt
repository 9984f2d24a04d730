// What a record's answer makes of its session's count, of the value that the session keeps, and of its mark.
#![tactic(auto)]

ghost use Rattle.std.specs.Prelude.{◌≡◌};
ghost use Rattle.book.specs.Answers.{replies};
ghost use Rattle.counting.specs.Counts.{Counts, refused_for, behind, Passes};

use book::{Answer, Refusal, Reply};
use marks::marked;

// The count after a record, the value that is kept, the mark, and the record's reply.
#[derive(Clone, Copy)]
pub struct Counted {
    pub count: u16,
    pub value: Option<u8>,
    pub mark: u32,
    pub reply: Reply,
}

// A record that was run, of these bytes: one that was taken makes the count `next`, its own value is kept, or none, and its bytes move the mark; one that was
// refused leaves all three.
// Stays: the three side by side, here and below: a session holds them in one struct with its number, and two functions take them apart.
pub fn ran(
    count: u16,
    value: Option<u8>,
    mark: u32,
    next: u16,
    bytes: &[u8],
    answer: Answer,
) -> Counted
    ensures { Counts count value mark next bytes.now answer result }
{
    let reply = Reply::Said(answer);
    let moved = marked(mark, bytes);
    match answer {
        Ok(own) => Counted {
            count: next,
            value: own,
            mark: moved,
            reply,
        },
        Err(_) => Counted {
            count,
            value,
            mark,
            reply,
        },
    }
}

// What the size is refused for comes before a reply.
fn behind<T: Copy>(size: Result<T, Refusal>, reply: Reply) -> Reply
    ensures { replies result ≡ behind (refused_for size) (replies reply) }
{
    match size {
        Ok(_) => reply,
        Err(refusal) => Reply::Said(Err(refusal)),
    }
}

// A record that was not run leaves all three. Its size is a judge's ruling, or an answer, whatever its value.
pub fn passed<T: Copy>(
    count: u16,
    value: Option<u8>,
    mark: u32,
    size: Result<T, Refusal>,
    reply: Reply,
) -> Counted
    ensures { Passes count value mark size reply result }
{
    let reply = behind(size, reply);
    Counted {
        count,
        value,
        mark,
        reply,
    }
}
