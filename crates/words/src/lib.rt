// Words put behind a place of a buffer. Each answers the place behind them.
// An inner room: its callers, the lines of the program, are proved to have the room that is asked.
#![tactic(auto)]

ghost use Rattle.std.specs.Prelude.{◌+◌, ◌^◌, ◌≤◌, ◌<◌, length};
ghost use Rattle.io.specs.Digits.{last_digits};
ghost use Rattle.words.specs.Words.{decimal, bits, mark_digits, Added};

// Stays: a place in the buffer, as in stores; and no `write!`, whose writer could fail for room, where each line is proved to have it.
// And a loop: `copy_from_slice` is C's memmove, which the archive would need from outside for a frame that comes in two parts.
pub fn add(out: &mut [u8], at: usize, words: &[u8]) -> usize
    requires { at + length words.now ≤ length out.old }
    ensures { Added words.now (length words.now) out.old at result out.new }
{
    for i in 0..words.len() {
        out[at + i] = words[i];
    }
    at + words.len()
}

pub fn add_number(out: &mut [u8], at: usize, n: u64) -> usize
    requires { at + 20 ≤ length out.old }
    ensures { Added (decimal n) 20 out.old at result out.new }
{
    let mut digits = [0u8; 20];
    let k = io::decimal(n, &mut digits);
    add(out, at, &digits[..k])
}

// A number in hex digits, as many as are asked, which hold it.
fn add_hex(out: &mut [u8], at: usize, n: u64, width: usize) -> usize
    requires { (1 ≤ width) × (width ≤ 16) × (n < 16 ^ width) × (at + width ≤ length out.old) }
    ensures { Added (last_digits 16 width n) width out.old at result out.new }
{
    let mut digits = [0u8; 16];
    let k = io::hex(n, width, &mut digits);
    add(out, at, &digits[..k])
}

pub fn add_bits(out: &mut [u8], at: usize, x: f64) -> usize
    requires { at + 16 ≤ length out.old }
    ensures { Added (bits x) 16 out.old at result out.new }
{
    add_hex(out, at, wire::bits_of(x), 16)
}

pub fn add_mark(out: &mut [u8], at: usize, mark: u32) -> usize
    requires { at + 8 ≤ length out.old }
    ensures { Added (mark_digits mark) 8 out.old at result out.new }
{
    add_hex(out, at, mark as u64, 8)
}
