// The program's lines put one behind the other into a buffer, as far as it goes. Each function answers the place behind its lines.
#![tactic(auto)]

ghost use Rattle.std.specs.Prelude.{cond, [], ◌≡◌, ◌≤◌, length};
ghost use Rattle.book.specs.Answers.{replies, buffers};
ghost use Rattle.book.specs.Sessions.{Session};
ghost use Rattle.delivery_lines.specs.Deliveries.{delivery_line};
ghost use Rattle.puts.specs.Put.{Put};
ghost use Rattle.stream.specs.Lines.{amplitude_line, cut_line, bad_header_line};
ghost use Rattle.printing.specs.Printed.{state_lines, closing};

use book::Reply;
use puts::put;

// The D line of an answer.
// Stays: a place in the buffer, as in puts; and a line made in each function: no plainer by a closure, whose contract would say what the line's says.
pub fn put_answer(out: &mut [u8], at: usize, index: u64, reply: Reply, count: u16) -> usize
    ensures { Put (delivery_line index (replies reply) count) out.old at result out.new }
{
    let mut line = [0u8; 128];
    let n = stream::delivery_line(&mut line, index, reply, count);
    put(out, at, &line[..n])
}

// Only this line.
pub fn put_bad_header(out: &mut [u8], at: usize) -> usize
    ensures { Put bad_header_line out.old at result out.new }
{
    let mut line = [0u8; 128];
    let n = stream::bad_header_line(&mut line);
    put(out, at, &line[..n])
}

// CUT, where a frame was cut short or had a wrong tag.
fn put_cut(out: &mut [u8], at: usize, cut: bool) -> usize
    ensures { Put (cond cut cut_line []) out.old at result out.new }
{
    if !cut {
        return put(out, at, b"");
    }
    let mut line = [0u8; 128];
    let n = stream::cut_line(&mut line);
    put(out, at, &line[..n])
}

// The A line of a place.
fn put_place(out: &mut [u8], at: usize, index: u64, re: f64, im: f64) -> usize
    ensures { Put (amplitude_line index re im) out.old at result out.new }
{
    let mut line = [0u8; 128];
    let n = stream::amplitude_line(&mut line, index, re, im);
    put(out, at, &line[..n])
}

// The A lines, as far as both buffers go.
fn put_state(out: &mut [u8], at: usize, reals: &[f64], imags: &[f64]) -> usize
    requires { at ≤ length out.old }
    ensures { Put (state_lines 0 reals.now imags.now) out.old at result out.new }
{
    let mut next = at;
    for place in 0..reals.len().min(imags.len()) {
        next = put_place(out, next, place as u64, reals[place], imags[place]);
    }
    next
}

// CUT, the A lines and END, of the session with this count and this mark.
pub fn put_closing(
    out: &mut [u8],
    at: usize,
    cut: bool,
    count: u16,
    mark: u32,
    reals: &[f64],
    imags: &[f64],
) -> usize
    ensures { (s : Session) → s.count ≡ count → s.mark ≡ mark
        → Put (closing cut s (buffers reals.now imags.now)) out.old at result out.new }
{
    let behind_cut = put_cut(out, at, cut);
    let behind_state = put_state(out, behind_cut, reals, imags);
    let mut line = [0u8; 128];
    let n = stream::end_line(&mut line, count, mark);
    put(out, behind_state, &line[..n])
}
