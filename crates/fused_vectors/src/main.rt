// Compares F and the root with answers that a machine's own fma and sqrt gave, read from standard input, and prints how many there were and how many differ.
//
// A line has 70 bytes: a letter, four words of 16 hex digits with a space before each, and a line feed. `F x y z r` asks that r is F(x,y,z), and
// `R x r x r` twice that r is the root of x. docs/VECTORS.md says how the list was made. A line that is not so is counted as unread, and so are bytes
// left over at the end: what is printed shows a short or a spoilt list.
#![tactic(auto)]

mod text;

use reading::read_full;
use std::io;
use std::io::Read;
use text::words;
use wire::{bits_of, float_of};

const LINE: usize = 70;

// Of so many differences each is printed.
const SHOWN: u64 = 5;

#[derive(Clone, Copy)]
struct Tally {
    fused: u64,
    fused_differ: u64,
    roots: u64,
    roots_differ: u64,
    unread: u64,
}

// The line that asks, which has what is wanted, and behind it what was got.
// Stays: what is printed to, the line and the tally, here and below: no plainer as a struct, of which each function would change a part.
fn show(rt: &impl Print, line: &[u8; 70], got: f64) -> io::Result<()> {
    rt.write_all(line)?;
    println!(rt; "{:016x} got", bits_of(got))
}

// How many differ, with this one.
fn compared(
    rt: &impl Print,
    line: &[u8; 70],
    wanted: u64,
    got: f64,
    differ: u64,
) -> io::Result<u64> {
    if bits_of(got) == bits_of(float_of(wanted)) {
        return Ok(differ);
    }
    if differ < SHOWN {
        show(rt, line, got)?;
    }
    Ok(differ.wrapping_add(1))
}

fn fused_case(rt: &impl Print, line: &[u8; 70], w: [u64; 4], t: Tally) -> io::Result<Tally> {
    let [x, y, z, wanted] = w;
    let got = fused::fused(float_of(x), float_of(y), float_of(z));
    Ok(Tally {
        fused: t.fused.wrapping_add(1),
        fused_differ: compared(rt, line, wanted, got, t.fused_differ)?,
        ..t
    })
}

fn root_case(rt: &impl Print, line: &[u8; 70], x: u64, wanted: u64, t: Tally) -> io::Result<Tally> {
    let got = roots::root(float_of(x));
    Ok(Tally {
        roots: t.roots.wrapping_add(1),
        roots_differ: compared(rt, line, wanted, got, t.roots_differ)?,
        ..t
    })
}

fn unread(t: Tally) -> Tally {
    Tally {
        unread: t.unread.wrapping_add(1),
        ..t
    }
}

fn asked(rt: &impl Print, line: &[u8; 70], t: Tally) -> io::Result<Tally> {
    let Some(w) = words(line) else {
        return Ok(unread(t));
    };
    match line[0] {
        b'F' => fused_case(rt, line, w, t),
        b'R' => root_case(rt, line, w[2], w[3], root_case(rt, line, w[0], w[1], t)?),
        _ => Ok(unread(t)),
    }
}

// Every whole line; a rest counts as one unread. Nothing says that an input ends: no list has so many lines.
fn whole_list<R: Read>(rt: &impl Print, input: &mut R) -> io::Result<Tally> {
    let mut line = [0u8; LINE];
    let mut t = Tally {
        fused: 0,
        fused_differ: 0,
        roots: 0,
        roots_differ: 0,
        unread: 0,
    };
    for _ in 0..u64::MAX {
        let got = read_full(input, &mut line)?;
        if got == 0 {
            return Ok(t);
        }
        if got < LINE {
            return Ok(unread(t));
        }
        t = asked(rt, &line, t)?;
    }
    Ok(t)
}

// A count, behind its label.
fn tell(rt: &impl Print, label: &str, n: u64) -> io::Result<()> {
    print!(rt; "{label}{n}")
}

fn count(rt: &impl Print, name: &str, cases: u64, differ: u64) -> io::Result<()> {
    tell(rt, name, cases)?;
    tell(rt, " cases ", differ)?;
    println!(rt; " differences")
}

fn main(rt: HostRuntime) -> io::Result<()> {
    let t = whole_list(&rt, &mut rt.stdin())?;
    count(&rt, "F ", t.fused, t.fused_differ)?;
    count(&rt, "root ", t.roots, t.roots_differ)?;
    tell(&rt, "unread ", t.unread)?;
    println!(rt; "")
}
