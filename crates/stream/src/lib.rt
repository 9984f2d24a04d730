// The program's output over slices: the lines that it prints, each at the start of a buffer of the caller's. That of a delivery is passed on.
#![tactic(auto)]

ghost use Rattle.std.specs.Prelude.{◌≡◌};
ghost use Rattle.book.specs.Sessions.{Session};
ghost use Rattle.io.specs.Counts.{IsPrefixLen};
ghost use Rattle.stream.specs.Lines.{amplitude_line, end_line, cut_line, bad_header_line};
ghost use Rattle.words.specs.Words.{Line};

pub use delivery_lines::delivery_line;
use words::{add, add_bits, add_mark, add_number};

// Stays: a line in the caller's buffer, and its length: docs/PROMISES names the five lines with their contract (`Line`).
pub fn amplitude_line(out: &mut [u8; 128], index: u64, re: f64, im: f64) -> usize
    ensures { Line (amplitude_line index re im) out.old result out.new }
{
    let behind_a = add(out, 0, b"A ");
    let behind_index = add_number(out, behind_a, index);
    let behind_blank = add(out, behind_index, b" ");
    let behind_re = add_bits(out, behind_blank, re);
    let behind_next = add(out, behind_re, b" ");
    let behind_im = add_bits(out, behind_next, im);
    add(out, behind_im, b"\n")
}

// Of the session with this count and this mark.
pub fn end_line(out: &mut [u8; 128], count: u16, mark: u32) -> usize
    ensures of { (s : Session) → s.count ≡ count → s.mark ≡ mark → Line (end_line s) out.old result out.new }
    ensures counts { IsPrefixLen result out.new }
{
    let behind_end = add(out, 0, b"END ");
    let behind_count = add_number(out, behind_end, count as u64);
    let behind_word = add(out, behind_count, b" MARK ");
    let behind_mark = add_mark(out, behind_word, mark);
    add(out, behind_mark, b"\n")
}

pub fn cut_line(out: &mut [u8; 128]) -> usize
    ensures { Line cut_line out.old result out.new }
{
    add(out, 0, b"CUT\n")
}

pub fn bad_header_line(out: &mut [u8; 128]) -> usize
    ensures { Line bad_header_line out.old result out.new }
{
    add(out, 0, b"BAD HEADER\n")
}
