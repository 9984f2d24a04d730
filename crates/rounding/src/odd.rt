// Rounding to odd: a number is cut, and the last digit that is left is made 1 where anything was cut off.
ghost use Rattle.std.specs.Prelude.{◌≡◌};
ghost use Rattle.rounding.specs.Odd.{to_odd, cut_to_odd};

// q, and where a rest r was left over, the odd one of q and q + 1.
pub fn to_odd(q: u64, r: u64) -> u64
    ensures { result ≡ to_odd q r }
{
    if r == 0 { q } else { q / 2 * 2 + 1 }
}

// x / 2^n, rounded to odd.
pub fn shift_to_odd(x: u64, n: u64) -> u64
    ensures { result ≡ cut_to_odd x n }
{
    if n < 64 {
        let q = x >> n;
        to_odd(q, x - (q << n))
    } else {
        to_odd(0, x)
    }
}
