// The words of a line.

// A space and 16 hex digits in lower case: `from_str_radix` by itself would take upper case and a sign too.
fn word(bytes: &[u8]) -> Option<u64> {
    let digits = bytes.strip_prefix(b" ")?;
    if !digits
        .iter()
        .all(|b| matches!(*b, b'0'..=b'9' | b'a'..=b'f'))
    {
        return None;
    }
    u64::from_str_radix(str::from_utf8(digits).ok()?, 16).ok()
}

// The four words behind the letter, where a line feed ends the line.
pub(crate) fn words(line: &[u8; 70]) -> Option<[u64; 4]> {
    let mut words = [0; 4];
    for (to, bytes) in words.iter_mut().zip(line[1..69].chunks_exact(17)) {
        *to = word(bytes)?;
    }
    if line[69] == b'\n' { Some(words) } else { None }
}
