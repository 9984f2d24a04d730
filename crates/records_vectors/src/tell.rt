// What was read of a byte string, and what is written back, as one line of text: by the reader and the writer as the archive has them, with a record as
// six whole numbers and eight floats.
use crate::text::{floats, hex, number, text};
use answers::TAKEN;
use spelling::{read_numbers, write_numbers};
use std::io;

// The writer's buffer: a byte more than the largest record, and one to spare.
const ROOM: usize = 96;

// What it holds before: a byte that the writer touches shows.
const UNTOUCHED: u8 = 0xee;

// The writer's answer is a number of bytes from here on, and a refusal below.
const LEAST: u32 = 24;

// How many floats a record of this code has: an angle's two, U's eight, a bit flip's two.
// Stays: the code is one of the numbers that a flat record is.
fn float_count(code: u32) -> usize {
    match code {
        1 | 2 | 3 | 4 | 10 | 11 => 0,
        9 => 8,
        _ => 2,
    }
}

// Stays: numbers and floats side by side, here and below: so the archive lends a flat record.
// Session, number, code, target; the mask, second qubit or outcome, which a bit flip has not; a measurement's reset.
fn tell_fields(rt: &impl Print, fields: &[u32; 6]) -> io::Result<()> {
    for field in &fields[..4] {
        number(rt, *field)?;
    }
    if fields[2] != 12 {
        number(rt, fields[4])?;
    }
    if fields[2] == 11 {
        number(rt, fields[5])?;
    }
    Ok(())
}

fn refused(rt: &impl Print, said: u32) -> io::Result<()> {
    text(rt, "REFUSED")?;
    number(rt, said)
}

fn answer(rt: &impl Print, said: u32) -> io::Result<()> {
    text(rt, " ")?;
    if said < LEAST {
        return refused(rt, said);
    }
    text(rt, "WRITES")?;
    number(rt, said)
}

// What the writer answers, and what it leaves in the buffer.
fn tell_buffer(
    rt: &impl Print,
    fields: &[u32],
    values: &[f64],
    buffer: &mut [u8],
) -> io::Result<()> {
    answer(rt, write_numbers(fields, values, buffer))?;
    text(rt, " ")?;
    hex(rt, buffer)
}

// The same for a buffer of so many bytes.
fn tell_written(rt: &impl Print, fields: &[u32], values: &[f64], room: usize) -> io::Result<()> {
    let mut buffer = [UNTOUCHED; ROOM];
    if room <= ROOM {
        tell_buffer(rt, fields, values, &mut buffer[0..room])?;
    }
    Ok(())
}

// What is written back with a byte more than the record's, and with a byte less.
fn tell_both(rt: &impl Print, fields: &[u32], values: &[f64], len: usize) -> io::Result<()> {
    if 0 < len && len < ROOM {
        tell_written(rt, fields, values, len + 1)?;
        tell_written(rt, fields, values, len - 1)?;
    }
    Ok(())
}

pub fn tell(rt: &impl Print, bytes: &[u8]) -> io::Result<()> {
    let mut fields = [0u32; 6];
    let mut values = [0.0; 8];
    let said = read_numbers(bytes, &mut fields, &mut values);
    if said == TAKEN {
        text(rt, "READ")?;
        tell_fields(rt, &fields)?;
        floats(rt, &values, float_count(fields[2]))?;
        tell_both(rt, &fields, &values, bytes.len())?;
    } else {
        refused(rt, said)?;
    }
    text(rt, "\n")
}
