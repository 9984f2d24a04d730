// Replays a sample of the given Rust's answers, read from standard input, and prints how many cases there were and how many differ in any bit.
// docs/VECTORS-ORACLE.md has the format, and how the sample was made. What cannot be read as a case is counted as unread, and nothing behind it is read.
#![tactic(auto)]

mod case;
mod floats;
mod record;
mod run;

use case::{Verdict, read_case};
use std::io;

fn tell(rt: &impl Print, cases: u64, different: u64, unread: u64) -> io::Result<()> {
    println!(rt; "{cases} cases")?;
    println!(rt; "{different} different")?;
    println!(rt; "{unread} unread")
}

// Nothing says that an input ends: the loop ends at a number of cases that no sample has.
fn main(rt: HostRuntime) -> io::Result<()> {
    let mut input = rt.stdin();
    let mut different: u64 = 0;
    for cases in 0..u64::MAX {
        match read_case(&mut input)? {
            Verdict::Same => {}
            Verdict::Different => different = different.wrapping_add(1),
            Verdict::Unread => return tell(&rt, cases, different, 1),
            Verdict::End => return tell(&rt, cases, different, 0),
        }
    }
    Ok(())
}
