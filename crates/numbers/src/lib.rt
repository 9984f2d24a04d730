// The numbers of the bench, as definitions and theorems: specs/ says what F and the root of a format's values are, and proofs/ that they are IEEE 754's.
// There is no code here but binary64 in numbers, for the crates that compute F and the root.
#![tactic(auto)]

// How many binary digits a significand has.
pub const PRECISION: u64 = 53;

// The smallest value is 2^-LOW.
pub const LOW: u64 = 1074;

// A significand's leading digit, which the bits leave out: the weight of the exponent's field.
pub const HIDDEN: u64 = 0x0010_0000_0000_0000;

// The bits of an infinity, and the weight of the sign.
pub const INFINITY: u64 = 0x7ff0_0000_0000_0000;

pub const SIGN: u64 = 0x8000_0000_0000_0000;
