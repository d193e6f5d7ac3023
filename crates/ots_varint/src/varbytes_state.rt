//! The length of varbytes that comes byte by byte.
ghost use Rattle.std.specs.Prelude.{◌≡◌, ◌↔◌, ◌≤◌, ℕ, ◌∷◌, ◌++◌, [], if◌then◌else◌};
ghost use Rattle.ots_varint.specs.Varuint.{varuint};
ghost use Rattle.ots_varint.specs.Reading.{reading};
ghost use Rattle.ots_varint.specs.declared.reading.VaruintRead.TheVariants.{Value};
ghost use Rattle.ots_varint.specs.LengthStep.{length_step, is_more};

use crate::state::{Step, VaruintState};
use std::marker::Model;

/// What the bytes of a length that were fed so far make.
#[derive(Clone, Copy, Debug, PartialEq, Eq)]
pub enum LengthStep {
    /// More bytes are needed.
    More,
    /// The length has ended, and is within its bounds.
    Length(u32),
    /// The length has a last byte of 0 that adds nothing.
    NonMinimal,
    /// The length is 2^64 or more.
    TooLarge,
    /// The length is below the least.
    TooShort(u64),
    /// The length is above the greatest.
    TooLong(u64),
}

/// The first bytes of a length that has not ended, and its bounds. Contracts see it as these three.
#[derive(Drop)]
pub struct VarbytesState {
    state: VaruintState,
    least: u32,
    greatest: u32,
}

impl Model for VarbytesState {
    ghost use Rattle.ots_varint.specs.PartialLength.{PartialLength};

    ghost Value = { PartialLength };

    ghost view = { λ s. record { fed = s.state; least = s.least; greatest = s.greatest } };
}

impl VarbytesState {
    /// No byte yet, of a length from `least` to `greatest`.
    pub fn new(least: u32, greatest: u32) -> VarbytesState
        ensures { result ≡ record { fed = []; least = least; greatest = greatest } }
    {
        VarbytesState {
            state: VaruintState::new(),
            least,
            greatest,
        }
    }

    /// What the bytes so far and this one make. After another answer than `More` the state is as
    /// before this byte, which is then none of the bytes so far: the next byte comes in its place.
    pub fn feed(&mut self, byte: u8) -> LengthStep
        ensures answer { result ≡ length_step self.old.least self.old.greatest (reading (self.old.fed ++ byte ∷ [])) }
        ensures length { (n : ℕ) → (result ≡ LengthStep.Length n)
            ↔ ((self.old.least ≤ n) × (n ≤ self.old.greatest) × (self.old.fed ++ byte ∷ [] ≡ varuint n)) }
        ensures fed { self.new
            ≡ record self.old { fed = (if is_more result then self.old.fed ++ byte ∷ [] else self.old.fed) } }
    {
        let (least, greatest) = (self.least, self.greatest);
        match self.state.feed(byte) {
            Step::More => LengthStep::More,
            Step::NonMinimal => LengthStep::NonMinimal,
            Step::TooLarge => LengthStep::TooLarge,
            Step::Value(length) => within(least, greatest, length),
        }
    }
}

/// The length, where it is within these bounds.
fn within(least: u32, greatest: u32, length: u64) -> LengthStep
    ensures { result ≡ length_step least greatest (Value length 0) }
{
    if length < u64::from(least) {
        return LengthStep::TooShort(length);
    }
    if length > u64::from(greatest) {
        return LengthStep::TooLong(length);
    }
    LengthStep::Length(length as u32)
}
