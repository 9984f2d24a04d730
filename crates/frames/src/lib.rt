// What the program reads behind the header, over slices: the frame that comes next. A frame may have come in two parts.
#![tactic(auto)]

ghost use Rattle.std.specs.Prelude.{◌≡◌, ◌+◌, ◌<◌, ◌++◌, length, get_or};
ghost use Rattle.frames.specs.Frames.{next_of, sized};

use book::MOST_BYTES;

// What the bytes behind the last frame begin with: a whole frame of so many bytes, one over 94 bytes that is read past, a wrong tag, or a frame of which
// more has to come.
#[derive(Clone, Copy)]
pub enum Next {
    Whole(usize),
    Over(usize),
    Wrong,
    More,
}

const FRAME: u8 = 0x20;

// A frame of this length, of which so many bytes are there, tag and length with them.
fn sized(have: usize, len: usize) -> Next
    requires { len < 65536 }
    ensures { result ≡ sized have len }
{
    if MOST_BYTES < len {
        return Next::Over(len);
    }
    if have < 3 + len {
        return Next::More;
    }
    Next::Whole(len)
}

// A byte of a frame that came in two parts.
fn byte_at(first: &[u8], second: &[u8], i: usize) -> u8
    requires { i < length first.now + length second.now }
    ensures { result ≡ get_or (first.now ++ second.now) i 0 }
{
    let have = first.len();
    if i < have {
        return first[i];
    }
    second[i - have]
}

// The frame that the first bytes begin and the second go on with.
pub fn next_frame(first: &[u8], second: &[u8]) -> Next
    ensures { result ≡ next_of (first.now ++ second.now) }
{
    let have = first.len() + second.len();
    if have == 0 {
        return Next::More;
    }
    if byte_at(first, second, 0) != FRAME {
        return Next::Wrong;
    }
    if have < 3 {
        return Next::More;
    }
    let len = [byte_at(first, second, 1), byte_at(first, second, 2)];
    sized(have, usize::from(u16::from_be_bytes(len)))
}
