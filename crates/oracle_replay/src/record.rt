// The record of a case, delivered to a new session.
use crate::case::Head;
use act::Fast;
use book::{Answer, Reply};
use reading::read_full;
use sessions::Session;
use std::io;
use std::io::Read;

// The sampled records are the first of this session.
const NUMBER: u32 = 7;

// A value's answer is told as 32 and the value.
const VALUE: u8 = 32;

// A record stands in as many bytes as the longest has.
const SLOT: usize = 94;

// What is told of a refusal, and of a record that is not run.
const REFUSED: u8 = 255;

fn byte_of(answer: Answer) -> u8 {
    match answer {
        Ok(None) => 0,
        Ok(Some(v)) => VALUE.wrapping_add(v),
        Err(_) => REFUSED,
    }
}

// What a new session tells of the bytes.
fn told_of(n: u8, bytes: &[u8], reals: &mut [f64], imags: &mut [f64]) -> u8 {
    let Ok(session) = Session::start(u32::from(n), NUMBER) else {
        return REFUSED;
    };
    match session.deliver::<Fast>(bytes, reals, imags).reply {
        Reply::Again(_) => REFUSED,
        Reply::Said(answer) => byte_of(answer),
    }
}

// Whether the record, which is the slot's first bytes, is answered as it should be; none where it cannot be read.
pub(crate) fn deliver<R: Read>(
    input: &mut R,
    head: Head,
    reals: &mut [f64],
    imags: &mut [f64],
) -> io::Result<Option<bool>> {
    let mut slot = [0u8; SLOT];
    let length = head.length as usize;
    if SLOT < length || read_full(input, &mut slot)? < SLOT {
        return Ok(None);
    }
    Ok(Some(told_of(head.n, &slot[..length], reals, imags) == head.given))
}
