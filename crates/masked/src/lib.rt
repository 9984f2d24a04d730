// What stands behind 04 of a gate that has a control mask, codes 1 to 9. Where gates share a code's shape, it is what each is made of. Nothing may follow.
#![tactic(auto, unfolding(book::specs::Records::listed))]

ghost use Rattle.std.specs.Prelude.{◌≡◌, ℕ, false, MatchOption, option_map};
ghost use Rattle.book.specs.Records.{plain, angled, eight, starts, read_row};
ghost use Rattle.book.specs.declared.Angle.{Angle};
ghost use Rattle.book.specs.declared.Controls.{Controls};
ghost use Rattle.book.specs.declared.Gate.{Gate as AnyGate};
ghost use Rattle.fields.specs.Fields.{Holds};
ghost use Rattle.masked.specs.Masks.{mask};

use book::{Angle, Controls, Gate};
use fields::{angles_field, last, number_field, pair_field};

// Field 05, and what follows it.
fn mask_field(bytes: &[u8]) -> Option<(Controls, &[u8])>
    ensures { MatchOption result (starts 0x05 4 bytes.now ≡ false) (λ p. Holds mask 0x05 4 bytes.now p.0 p.1.now) }
{
    let (mask, rest) = number_field(bytes, 0x05, 4)?;
    Some((Controls::of(mask as u32), rest))
}

// Codes 1 to 4: the mask.
pub fn read_plain(bytes: &[u8]) -> Option<Controls>
    ensures { (g : ℕ → Controls → AnyGate) (t : ℕ) → option_map (g t) result ≡ read_row (plain g) t bytes.now }
{
    let (controls, rest) = mask_field(bytes)?;
    last(rest, controls)
}

// Codes 5 to 8: the mask, cosine and sine.
pub fn read_angled(bytes: &[u8]) -> Option<(Controls, Angle)>
    ensures { (g : ℕ → Controls → Angle → AnyGate) (t : ℕ) → option_map (λ p. g t p.0 p.1) result ≡ read_row (angled g) t bytes.now }
{
    let (controls, rest) = mask_field(bytes)?;
    let ((cosine, sine), rest) = pair_field(rest, 0x07)?;
    last(rest, (controls, Angle { cosine, sine }))
}

// Code 9: the mask, the eight numbers of U.
pub fn read_u(bytes: &[u8], target: u8) -> Option<Gate>
    ensures { result ≡ read_row (eight Gate.U) target bytes.now }
{
    let (controls, rest) = mask_field(bytes)?;
    let (angles, rest) = angles_field(rest, 0x08)?;
    last(rest, Gate::U(target, controls, angles))
}
