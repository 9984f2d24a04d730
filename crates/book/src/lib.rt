// The values that document 01 speaks of: amplitudes, gates, records, and the answers of the calls. A session's are in the crate sessions, with its methods.
// Types, the one place that makes controls, and the numbers of the refusals: what they mean is in specs/, in 01's order.
#![tactic(auto)]

ghost use Rattle.std.specs.Prelude.{◌≡◌};
ghost use Rattle.book.specs.Answers.{number_of};
ghost use Rattle.book.specs.State.{controlled};

// n is 1 to 24 for kernels and sessions.
pub const MOST_QUBITS: u32 = 24;

// A record has at most 94 bytes.
pub const MOST_BYTES: usize = 94;

// Any number of controls: a mask has 32 bits.
pub const ANY: u32 = 32;

// An amplitude is a pair of f64, real and imaginary.
#[derive(Clone, Copy)]
pub struct Amplitude {
    pub re: f64,
    pub im: f64,
}

// The amplitudes at the two places of a pair.
#[derive(Clone, Copy)]
pub struct Pair {
    pub s0: Amplitude,
    pub s1: Amplitude,
}

// A two-by-two matrix: four amplitudes, row by row.
#[derive(Clone, Copy)]
pub struct Matrix {
    pub entries: [Amplitude; 4],
}

// The controls of a gate: each qubit whose bit is set in ones has to be 1.
#[derive(Clone, Copy)]
pub struct Controls {
    pub ones: u32,
}

impl Controls {
    pub fn of(ones: u32) -> Controls
        ensures { result ≡ controlled ones }
    {
        Controls { ones }
    }
}

// Cosine and sine of an angle, or of the half angle for RX, RY and RZ.
#[derive(Clone, Copy)]
pub struct Angle {
    pub cosine: f64,
    pub sine: f64,
}

// The eight numbers of U, in 01's order.
#[derive(Clone, Copy)]
pub struct Angles {
    pub ct: f64,
    pub st: f64,
    pub cl: f64,
    pub sl: f64,
    pub cpl: f64,
    pub spl: f64,
    pub cp: f64,
    pub sp: f64,
}

// A measurement's forced outcome, and whether the qubit is set back to 0 after it.
#[derive(Clone, Copy)]
pub struct Forced {
    pub outcome: u8,
    pub reset: u8,
}

// A bit flip's probability, and the draw supplied for it.
#[derive(Clone, Copy)]
pub struct Noise {
    pub prob: f64,
    pub draw: f64,
}

// One gate with its own numbers: the target first, then its controls or second qubit, then what it is fed.
#[derive(Clone, Copy)]
pub enum Gate {
    H(u8, Controls),
    X(u8, Controls),
    Y(u8, Controls),
    Z(u8, Controls),
    P(u8, Controls, Angle),
    Rx(u8, Controls, Angle),
    Ry(u8, Controls, Angle),
    Rz(u8, Controls, Angle),
    U(u8, Controls, Angles),
    Swap(u8, u8),
    Measure(u8, Forced),
    BitFlip(u8, Noise),
}

// What stands behind field 04 of a gate's record: its controls or second qubit, and what it is fed.
#[derive(Clone, Copy)]
pub enum Shape {
    Plain(Controls),
    Angled(Controls, Angle),
    Eight(Controls, Angles),
    Second(u8),
    Forced(Forced),
    Noisy(Noise),
}

// A gate in parts: a row of 01's table of codes.
#[derive(Clone, Copy)]
pub struct Parts {
    pub code: u8,
    pub target: u8,
    pub shape: Shape,
}

// A gate record.
#[derive(Clone, Copy)]
pub struct Record {
    pub session: u32,
    pub number: u16,
    pub gate: Gate,
}

// The refusals, in the order of 01's table.
#[derive(Clone, Copy)]
pub enum Refusal {
    Size,
    Length,
    Qubit,
    Same,
    Form,
    Number,
    Chance,
    Record,
    Session,
    Early,
    Full,
    Room,
}

// Their numbers.
impl From<Refusal> for u32 {
    ghost from_gives = { λ refusal k. k ≡ number_of refusal };

    fn from(refusal: Refusal) -> u32 {
        match refusal {
            Refusal::Size => 1,
            Refusal::Length => 2,
            Refusal::Qubit => 3,
            Refusal::Same => 4,
            Refusal::Form => 5,
            Refusal::Number => 6,
            Refusal::Chance => 7,
            Refusal::Record => 8,
            Refusal::Session => 9,
            Refusal::Early => 10,
            Refusal::Full => 11,
            Refusal::Room => 12,
        }
    }
}

// What a kernel, a measurement or a matrix call answers: a value or none, or a refusal.
pub type Answer = Result<Option<u8>, Refusal>;

// What a delivery answers: AGAIN, which tells a value or none, or what a call answers.
#[derive(Clone, Copy)]
pub enum Reply {
    Again(Option<u8>),
    Said(Answer),
}
