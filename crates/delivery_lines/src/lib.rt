// The line that the program prints of a delivery, at the start of a buffer of the caller's.
#![tactic(auto)]

ghost use Rattle.std.specs.Prelude.{◌+◌, ◌≤◌, length, ◌≡◌};
ghost use Rattle.book.specs.Answers.{says, replies};
ghost use Rattle.delivery_lines.specs.Deliveries.{answering, saying, value_told, adding, delivery_line};
ghost use Rattle.words.specs.Words.{Added, Line};

use book::{Answer, Reply};
use words::{add, add_number};

// What a call answers, in front of the count.
// Stays: a place in the buffer, as in words.
fn add_answer(out: &mut [u8], at: usize, answer: Answer) -> usize
    requires { at + 29 ≤ length out.old }
    ensures { Added (answering (says answer)) 29 out.old at result out.new }
{
    match answer {
        Ok(_) => add(out, at, b" TAKEN"),
        Err(refusal) => {
            let behind = add(out, at, b" REFUSED ");
            add_number(out, behind, u32::from(refusal) as u64)
        }
    }
}

// What a delivery says there.
fn add_saying(out: &mut [u8], at: usize, reply: Reply) -> usize
    requires { at + 29 ≤ length out.old }
    ensures { Added (saying (replies reply)) 29 out.old at result out.new }
{
    match reply {
        Reply::Again(_) => add(out, at, b" AGAIN"),
        Reply::Said(answer) => add_answer(out, at, answer),
    }
}

// A taken measurement or flip has a value, and so has an AGAIN that tells one.
fn value_told(reply: Reply) -> Option<u8>
    ensures { result ≡ value_told (replies reply) }
{
    match reply {
        Reply::Again(told) => told,
        Reply::Said(answer) => answer.ok().flatten(),
    }
}

// It stands behind the count.
fn add_value(out: &mut [u8], at: usize, value: Option<u8>) -> usize
    requires { at + 27 ≤ length out.old }
    ensures { Added (adding value) 27 out.old at result out.new }
{
    let Some(v) = value else {
        return at;
    };
    let behind = add(out, at, b" VALUE ");
    add_number(out, behind, v as u64)
}

pub fn delivery_line(out: &mut [u8; 128], index: u64, reply: Reply, count: u16) -> usize
    ensures { Line (delivery_line index (replies reply) count) out.old result out.new }
{
    let behind_d = add(out, 0, b"D ");
    let behind_index = add_number(out, behind_d, index);
    let behind_reply = add_saying(out, behind_index, reply);
    let behind_word = add(out, behind_reply, b" COUNT ");
    let behind_count = add_number(out, behind_word, count as u64);
    let behind_value = add_value(out, behind_count, value_told(reply));
    add(out, behind_value, b"\n")
}
