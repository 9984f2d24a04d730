// The header that the program reads, over a slice, and what stands behind it.
#![tactic(auto)]

ghost use Rattle.std.specs.Prelude.{◌≡◌, ◌≤◌, drop, option_map};
ghost use Rattle.headers.specs.Headers.{header_of};

use heads::{field, number};

// A header gives n and the session.
#[derive(Clone, Copy)]
pub struct Header {
    pub n: u32,
    pub session: u32,
    pub ghost few: { n ≤ 11 },
}

// 21 0005, and what has that length.
const HEADER: u8 = 0x21;

const HEADER_LENGTH: usize = 5;

const HEADER_BYTES: usize = 8;

// n is 1 to 11 in the program.
pub const MOST_IN_PROGRAM: u8 = 11;

pub fn read_header(bytes: &[u8]) -> Option<Header>
    ensures { option_map (λ h. (h.n, h.session)) result ≡ header_of bytes.now }
{
    let (contents, _) = field(bytes, HEADER, HEADER_LENGTH)?;
    let n = contents[0];
    if n < 1 || MOST_IN_PROGRAM < n {
        return None;
    }
    Some(Header {
        n: u32::from(n),
        session: number(&contents[1..5]) as u32,
    })
}

// What stands behind the header.
pub fn behind_header(input: &[u8]) -> &[u8]
    ensures { result.now ≡ drop 8 input.now }
{
    input.get(HEADER_BYTES..).unwrap_or(&[])
}
