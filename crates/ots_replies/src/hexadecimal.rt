//! Lower-case hexadecimal digits.
ghost use Rattle.std.specs.Prelude.{◌≡◌, ◌≤◌, ◌+◌, ◌++◌, ◌↔◌, ℕ, List, length, slice_index, take, EachIndex, IsTrue, OnOk};
ghost use Rattle.hex.specs.Hex.{IsBytes, encode_lower};
ghost use Rattle.ots_replies.specs.inner.Shape.{IsHex, is_digit};

use ots_base::OutOfMemory;

/// Whether the bytes are the digits of some bytes.
pub(crate) fn is_hex(digits: &[u8]) -> bool
    ensures { IsTrue result ↔ IsHex digits.now }
{
    if digits.len() % 2 != 0 {
        return false;
    }
    are_digits(digits)
}

/// Whether each byte is a digit.
fn are_digits(digits: &[u8]) -> bool
    ensures { IsTrue result ↔ EachIndex digits.now (λ k. IsTrue (is_digit (slice_index digits.now k))) }
{
    digits.iter().all(|digit| is_digit(*digit))
}

/// Whether a byte is a lower-case hexadecimal digit.
fn is_digit(byte: u8) -> bool
    ensures { result ≡ is_digit byte }
{
    matches!(byte, b'0'..=b'9' | b'a'..=b'f')
}

/// Adds the bytes of these digits.
pub(crate) fn push_hex(bytes: &mut Vec<u8>, digits: &[u8]) -> Result<(), OutOfMemory>
    ensures longer { length bytes.old.items ≤ length bytes.new.items }
    ensures pushed { OnOk result ((more : List ℕ) → IsBytes more → digits.now ≡ encode_lower more
        → bytes.new.items ≡ bytes.old.items ++ more) }
{
    let start = bytes.len();
    bytes.resize(start + digits.len() / 2, 0)?;
    decode_after(bytes, start, digits);
    Ok(())
}

/// Writes the bytes of these digits after the first `start`.
fn decode_after(bytes: &mut [u8], start: usize, digits: &[u8])
    requires { start ≤ length bytes.old }
    ensures { (more : List ℕ) → IsBytes more → digits.now ≡ encode_lower more
        → length bytes.old ≡ start + length more → bytes.new ≡ take start bytes.old ++ more }
{
    let _ = hex::decode_to_slice(digits, &mut bytes[start..]);
}
