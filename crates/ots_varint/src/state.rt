//! A number that comes byte by byte.
ghost use Rattle.std.specs.Prelude.{◌≡◌, ◌↔◌, ◌<◌, ◌^◌, ℕ, ◌∷◌, ◌++◌, [], ◌&&◌, nat_eq, nat_lt, if◌then◌else◌};
ghost use Rattle.ots_varint.specs.Varuint.{varuint};
ghost use Rattle.ots_varint.specs.Reading.{reading};
ghost use Rattle.ots_varint.specs.Step.{step_of, is_more};

use std::marker::Model;

/// What the bytes fed so far make.
#[derive(Clone, Copy, Debug, PartialEq, Eq)]
pub enum Step {
    /// More bytes are needed.
    More,
    /// The number has ended.
    Value(u64),
    /// The number has a last byte of 0 that adds nothing.
    NonMinimal,
    /// The number is 2^64 or more.
    TooLarge,
}

/// The first bytes of a number that has not ended. Contracts see it as the list of these bytes.
#[derive(Drop)]
pub struct VaruintState {
    value: u64,
    scale: u64,
    position: u8,
}

impl Model for VaruintState {
    ghost use Rattle.std.specs.Prelude.{ℕ, List};
    ghost use Rattle.ots_varint.specs.Continued.{continued, IsPartial};

    ghost Value = { List ℕ };

    ghost view = { λ s. continued s.position s.value };

    ghost invariant = { λ s. IsPartial s.value s.scale s.position };
}

impl VaruintState {
    /// No byte yet.
    pub fn new() -> VaruintState
        ensures { result ≡ [] }
    {
        VaruintState {
            value: 0,
            scale: 1,
            position: 0,
        }
    }

    /// What the bytes so far and this one make. After another answer than `More` the state is as
    /// before this byte, which is then none of the bytes so far: the next byte comes in its place.
    #[inline(always)]
    pub fn feed(&mut self, byte: u8) -> Step
        ensures answer { result ≡ step_of (reading (self.old ++ byte ∷ [])) }
        ensures value { (n : ℕ) → (result ≡ Step.Value n) ↔ ((n < 2 ^ 64) × (self.old ++ byte ∷ [] ≡ varuint n)) }
        ensures fed { self.new ≡ (if is_more result then self.old ++ byte ∷ [] else self.old) }
    {
        if is_over(self.position, byte) {
            return Step::TooLarge;
        }
        if is_padding(self.position, byte) {
            return Step::NonMinimal;
        }
        if byte < 128 {
            return Step::Value(self.value + self.scale * u64::from(byte));
        }
        self.value += self.scale * u64::from(byte - 128);
        self.scale *= 128;
        self.position += 1;
        Step::More
    }
}

/// Whether this byte at this position makes the number 2^64 or more.
fn is_over(position: u8, byte: u8) -> bool
    ensures { result ≡ (nat_eq position 9 && nat_lt 1 byte) }
{
    position == 9 && byte > 1
}

/// Whether this byte at this position adds nothing to the number.
fn is_padding(position: u8, byte: u8) -> bool
    ensures { result ≡ (nat_lt 0 position && nat_eq byte 0) }
{
    position > 0 && byte == 0
}
