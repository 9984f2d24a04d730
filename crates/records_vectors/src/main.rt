// Reads byte strings from standard input, a line of hex digits for each, and prints for each what the reader reads in it, and what the writer
// writes back. The list, and what is to be printed, were made by another program (docs/VECTORS-RECORDS.md).
#![tactic(auto)]

mod lines;
mod tell;
mod text;

use lines::{MOST, read_line};
use std::io;
use tell::tell;

// Nothing says that an input ends: the turns are counted up to a number that no run uses up.
fn main(rt: HostRuntime) -> io::Result<()> {
    let mut input = rt.stdin();
    let mut line = [0u8; MOST];
    for _ in 0..u64::MAX {
        let Some(len) = read_line(&mut input, &mut line)? else {
            return Ok(());
        };
        tell(&rt, &line[..len])?;
    }
    Ok(())
}
