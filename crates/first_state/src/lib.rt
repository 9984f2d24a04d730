// The state that the program begins with.
#![tactic(auto)]

ghost use Rattle.std.specs.Prelude.{◌≡◌, ℕ, ◌^◌, ◌≤◌, take};
ghost use Rattle.first_state.specs.First.{first_state};

// The places of the most qubits in the program.
pub const MOST_PLACES: usize = 2048;

// Real 1 at index 0, in as many places as n qubits have.
pub fn first_reals() -> [f64; MOST_PLACES]
    ensures { (n : ℕ) → n ≤ 11 → take (2 ^ n) result ≡ (first_state n).reals }
{
    let mut reals = [0.0; MOST_PLACES];
    reals[0] = 1.0;
    reals
}
