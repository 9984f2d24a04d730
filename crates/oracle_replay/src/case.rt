// One case: its head says what is called, on how many qubits, and so how many floats follow.
use crate::floats::read_floats;
use crate::run::run_case;
use reading::read_full;
use std::io;
use std::io::Read;

// What is called.
#[derive(Clone, Copy)]
pub(crate) enum Kind {
    Record,
    GateMatrix,
    Transpose,
    Product,
    StateProduct,
}

// given is the answer that is expected, or the target of a gate's matrix; length is the record's.
#[derive(Clone, Copy)]
pub(crate) struct Head {
    pub(crate) kind: Kind,
    pub(crate) n: u8,
    pub(crate) given: u8,
    pub(crate) length: u8,
}

// What comes of the next case: none where the input ends, and unread where it cannot be read as one.
#[derive(Clone, Copy)]
pub(crate) enum Verdict {
    Same,
    Different,
    Unread,
    End,
}

// No sampled state has more qubits.
const MOST_SAMPLED: u8 = 6;

fn kind_of(byte: u8) -> Option<Kind> {
    match byte {
        1 => Some(Kind::Record),
        2 => Some(Kind::GateMatrix),
        3 => Some(Kind::Transpose),
        4 => Some(Kind::Product),
        5 => Some(Kind::StateProduct),
        _ => None,
    }
}

fn head_of(bytes: [u8; 4]) -> Option<Head> {
    let kind = kind_of(bytes[0])?;
    Some(Head {
        kind,
        n: bytes[1],
        given: bytes[2],
        length: bytes[3],
    })
}

// How many places the first operand has, and how many the second and what is wanted.
fn places(head: Head) -> Option<(usize, usize)> {
    if MOST_SAMPLED < head.n {
        return None;
    }
    let side: usize = 1 << head.n;
    let all = side * side;
    match head.kind {
        Kind::Record => Some((0, side)),
        Kind::GateMatrix => Some((4, all)),
        Kind::Transpose => Some((0, all)),
        Kind::Product => Some((all, all)),
        Kind::StateProduct => Some((all, side)),
    }
}

fn headed<R: Read>(input: &mut R, head: Head) -> io::Result<Verdict> {
    let Some((first, count)) = places(head) else {
        return Ok(Verdict::Unread);
    };
    let Some(floats) = read_floats(input, first, count)? else {
        return Ok(Verdict::Unread);
    };
    run_case(input, head, &floats)
}

pub(crate) fn read_case<R: Read>(input: &mut R) -> io::Result<Verdict> {
    let mut bytes = [0u8; 4];
    let got = read_full(input, &mut bytes)?;
    if got == 0 {
        return Ok(Verdict::End);
    }
    match head_of(bytes) {
        Some(head) if got == 4 => headed(input, head),
        _ => Ok(Verdict::Unread),
    }
}
