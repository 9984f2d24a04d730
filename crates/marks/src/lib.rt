// The running mark of what was taken.
#![tactic(auto)]

ghost use Rattle.std.specs.Prelude.{◌≡◌, ◌+◌, ◌*◌, ◌/◌, ◌%◌, ◌^◌};
ghost use Rattle.book.specs.Sessions.{marked};

// Left by 5: the bits that leave at the top come in below.
fn turned(mark: u32) -> u32
    ensures { result ≡ mark * 2 ^ 5 % 2 ^ 32 + mark / 2 ^ 27 }
{
    mark.rotate_left(5)
}

// By one byte: a turn, and then the byte is added, dropping any carry out of 32 bits.
fn moved(mark: u32, byte: u8) -> u32
    ensures { result ≡ (mark * 2 ^ 5 % 2 ^ 32 + mark / 2 ^ 27 + byte) % 2 ^ 32 }
{
    turned(mark).wrapping_add(u32::from(byte))
}

pub fn marked(mark: u32, bytes: &[u8]) -> u32
    ensures { result ≡ marked mark bytes.now }
{
    let mut next = mark;
    for byte in bytes {
        next = moved(next, *byte);
    }
    next
}
