// Words put into a buffer behind a place, as far as it goes.
#![tactic(auto)]

ghost use Rattle.puts.specs.Put.{Put};

use stores::store;

// Words behind a place. What finds no room is left out.
// Stays: a place in the buffer, as in stores: behind the last words that found room, or the end.
pub fn put(out: &mut [u8], at: usize, words: &[u8]) -> usize
    ensures { Put words.now out.old at result out.new }
{
    if out.len() < at {
        return out.len();
    }
    let n = words.len().min(out.len() - at);
    store(out, at, &words[..n])
}
