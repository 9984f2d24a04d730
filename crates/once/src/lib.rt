// Deliveries one after the other: specs/ says exactly-once as the contract of a function that makes them, and proofs/ has the laws of its loop.
#![tactic(auto)]

ghost use Rattle.std.specs.Prelude.{◌≡◌, min};

// The next delivery takes as many bytes as it asks, or those that are left where they are fewer.
pub fn next_size(asked: usize, left: usize) -> usize
    ensures { result ≡ min asked left }
{
    asked.min(left)
}
