// Where a record stands to its session: 9, 11, AGAIN, 10, or the next one.
#![tactic(auto)]

ghost use Rattle.std.specs.Prelude.{◌≡◌};
ghost use Rattle.book.specs.Sessions.{told_again};
ghost use Rattle.standing.specs.Stands.{Stood};

use book::{Record, Refusal, Reply};

// Record numbers are 0 to 65,534.
const FULL: u16 = 65535;

// A repeat of the last record taken tells the value that is kept, one of an older record none.
fn told_again(count: u16, value: Option<u8>, at: u16) -> Option<u8>
    ensures { result ≡ told_again count value at }
{
    if u32::from(at) + 1 == u32::from(count) {
        return value;
    }
    None
}

// In a session of this number and count, which keeps this value. A record that is next goes on to its gate, with the count that a taken gate makes; any other
// has its reply.
pub fn stand(own: u32, count: u16, value: Option<u8>, it: Record) -> Result<u16, Reply>
    ensures { Stood own count value it result }
{
    let at = it.number;
    let told = told_again(count, value, at);
    if it.session != own {
        return Err(Reply::Said(Err(Refusal::Session)));
    }
    if at == FULL {
        return Err(Reply::Said(Err(Refusal::Full)));
    }
    if at < count {
        return Err(Reply::Again(told));
    }
    if count < at {
        return Err(Reply::Said(Err(Refusal::Early)));
    }
    Ok(count + 1)
}
