//! Reading the number at the start of some bytes.
ghost use Rattle.std.specs.Prelude.{◌≡◌, ◌↔◌, ℕ};
ghost use Rattle.ots_varint.specs.Reading.{reading, IsSpelledAt};

use crate::state::{Step, VaruintState};

/// What stands at the start of some bytes.
#[derive(Clone, Copy, Debug, PartialEq, Eq)]
pub enum VaruintRead {
    /// A number, and how many bytes spell it: 1 to 10.
    Value(u64, usize),
    /// The bytes end before the number does.
    Short,
    /// The number has a last byte of 0 that adds nothing.
    NonMinimal,
    /// The number is 2^64 or more.
    TooLarge,
}

/// The number at the start of the bytes, and how many of them it takes. What follows doesn't
/// matter.
#[inline(always)]
pub fn read_varuint(bytes: &[u8]) -> VaruintRead
    ensures table { result ≡ reading bytes.now }
    ensures value { (n used : ℕ) → (result ≡ VaruintRead.Value n used) ↔ IsSpelledAt bytes.now n used }
{
    match bytes.split_first() {
        Some((byte, _)) if *byte < 128 => VaruintRead::Value(u64::from(*byte), 1),
        _ => read_byte_by_byte(bytes),
    }
}

/// The same, where the number may take more than one byte.
#[inline(always)]
fn read_byte_by_byte(bytes: &[u8]) -> VaruintRead
    ensures table { result ≡ reading bytes.now }
    ensures value { (n used : ℕ) → (result ≡ VaruintRead.Value n used) ↔ IsSpelledAt bytes.now n used }
{
    let mut state = VaruintState::new();
    for (index, byte) in bytes.iter().enumerate() {
        match state.feed(*byte) {
            Step::More => {}
            Step::Value(number) => return VaruintRead::Value(number, index + 1),
            Step::NonMinimal => return VaruintRead::NonMinimal,
            Step::TooLarge => return VaruintRead::TooLarge,
        }
    }
    VaruintRead::Short
}
