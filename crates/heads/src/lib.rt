// The number that bytes are, and the field of a tag and a length that stands at their start.
// An inner room: its callers are proved to have the bytes that are asked.
#![tactic(auto)]

ghost use Rattle.std.specs.Prelude.{◌≡◌, ◌^◌, ◌≤◌, ◌<◌, false, length, MatchOption};
ghost use Rattle.book.specs.Records.{number, starts};
ghost use Rattle.heads.specs.Fields.{Listed};

// The number that up to 8 bytes are, the first the highest.
pub fn number(bytes: &[u8]) -> u64
    requires { length bytes.now ≤ 8 }
    ensures { (result ≡ number bytes.now) × (result < 256 ^ length bytes.now) }
{
    let mut n: u64 = 0;
    for byte in bytes {
        n = n * 256 + *byte as u64;
    }
    n
}

// What the field of this tag and this length holds, if it stands at the start, and what follows it.
pub fn field(bytes: &[u8], tag: u8, len: usize) -> Option<(&[u8], &[u8])>
    requires { len ≤ 64 }
    ensures { MatchOption result (starts tag len bytes.now ≡ false) (λ p. Listed tag len bytes.now p.0.now p.1.now) }
{
    if bytes.len() < 3 + len {
        return None;
    }
    if bytes[0] != tag {
        return None;
    }
    if number(&bytes[1..3]) != len as u64 {
        return None;
    }
    Some((&bytes[3..3 + len], &bytes[3 + len..]))
}
