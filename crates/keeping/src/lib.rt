// A session as a caller of the archive keeps it: eight words. n, its number, the count, the value, the mark, and three for requests to come.
// Any eight words are a session, and words that no delivery has to change stay as they are.
#![tactic(auto)]

ghost use Rattle.std.specs.Prelude.{◌≡◌, ◌≤◌, length};
ghost use Rattle.keeping.specs.Kept.{value_in, session_in, fresh_words, written, Worded, Keeps};

// A value's word: 0 for none, v + 1 for a value v.
fn word_of(value: Option<u8>) -> u32
    ensures { Worded value result }
{
    match value {
        None => 0,
        Some(v) => u32::from(v) + 1,
    }
}

// The value of any word.
fn value_from(word: u32) -> Option<u8>
    ensures { result ≡ value_in word }
{
    if word == 0 {
        return None;
    }
    Some(((word - 1) % 256) as u8)
}

// The count of the session that the words are, and its value.
pub fn count_in(words: &[u32; 8]) -> u16
    ensures { result ≡ (session_in words.now).count }
{
    (words[2] % 65536) as u16
}

pub fn value_in(words: &[u32; 8]) -> Option<u8>
    ensures { result ≡ (session_in words.now).value }
{
    value_from(words[3])
}

// A session that starts.
pub fn begin(words: &mut [u32; 8], n: u32, number: u32)
    ensures { words.new ≡ fresh_words n number }
{
    *words = [n, number, 0, 0, 0, 0, 0, 0];
}

// Where the count moved, it, the value's word and the mark are written.
// Stays: the three side by side, here and below: no plainer as a struct that only these two functions would take.
fn write(words: &mut [u32], count: u16, word: u32, mark: u32)
    requires { 5 ≤ length words.old }
    ensures { words.new ≡ written words.old count word mark }
{
    if words[2] % 65536 != u32::from(count) {
        words[2] = u32::from(count);
        words[3] = word;
        words[4] = mark;
    }
}

// What a delivery came to.
pub fn keep(words: &mut [u32; 8], count: u16, value: Option<u8>, mark: u32)
    ensures { Keeps words.old count value mark words.new }
{
    let word = word_of(value);
    write(words, count, word, mark)
}
