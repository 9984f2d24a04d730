// An answer as one number, laid out for all that is to come: the low byte is a refusal's number or a value, and what stands above it says which.
// 0 taken, 1 to 255 a refusal, 256 AGAIN, 512 + v an AGAIN that tells the value v, 768 + v a value v.
#![tactic(auto)]

ghost use Rattle.std.specs.Prelude.{◌≡◌};
ghost use Rattle.book.specs.Answers.{says, replies};
ghost use Rattle.answers.specs.Told.{said_number, replied_number};

use book::{Answer, Reply};

pub const TAKEN: u32 = 0;

// A value v is VALUE + v.
const VALUE: u32 = 768;

const AGAIN: u32 = 256;

// An AGAIN that tells a value v is AGAIN_VALUE + v.
const AGAIN_VALUE: u32 = 512;

// Stays: functions, here and below: these are the archive's numbers, and an impl of From would stand in book, which has none of them.
pub fn tell(answer: Answer) -> u32
    ensures { result ≡ said_number (says answer) }
{
    match answer {
        Ok(None) => TAKEN,
        Ok(Some(v)) => VALUE + u32::from(v),
        Err(refusal) => u32::from(refusal),
    }
}

pub fn tell_reply(reply: Reply) -> u32
    ensures { result ≡ replied_number (replies reply) }
{
    match reply {
        Reply::Again(None) => AGAIN,
        Reply::Again(Some(v)) => AGAIN_VALUE + u32::from(v),
        Reply::Said(answer) => tell(answer),
    }
}
