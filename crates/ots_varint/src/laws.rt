//! Laws of the spelling and of its reading.
ghost use Rattle.std.specs.Prelude.{◌≡◌, ℕ, ◌/◌, ◌%◌, ◌+◌, ◌<◌, ◌≤◌, ◌^◌, List, [], ◌∷◌, ◌++◌, ◌↔◌, length};
ghost use Rattle.std.specs.List.{AllByRecursion};
ghost use Rattle.ots_varint.specs.Varuint.{varuint, varbytes};
ghost use Rattle.ots_varint.specs.Reading.{reading, IsSpelledAt};
ghost use Rattle.ots_varint.specs.declared.reading.VaruintRead.TheVariants.{Value, Short};

use crate::writing::MAX_SPELLED_NUMBER;

/// A number below 128 is its own byte; a greater one below 2^64 is its low seven bits under a high
/// bit, and then the spelling of the others. The spelling has 1 to `MAX_SPELLED_NUMBER` bytes,
/// determines its number and begins no other's. The same holds of varbytes.
pub fn one_spelling()
    ensures low { (n : ℕ) → n < 128 → varuint n ≡ n ∷ [] }
    ensures high { (n : ℕ) → 128 ≤ n → n < 2 ^ 64 → varuint n ≡ (128 + n % 128) ∷ varuint (n / 128) }
    ensures least { (n : ℕ) → 1 ≤ length (varuint n) }
    ensures greatest { (n : ℕ) → length (varuint n) ≤ MAX_SPELLED_NUMBER }
    ensures number { (m n : ℕ) (x y : List ℕ) → varuint m ++ x ≡ varuint n ++ y → m ≡ n }
    ensures bytes { (a b x y : List ℕ) → varbytes a ++ x ≡ varbytes b ++ y → (a ≡ b) × (x ≡ y) }
{}

/// The bytes read as the number n of `used` bytes exactly where the first `used` of them spell n.
pub fn numbers_read_as_spelled()
    ensures { (bytes : List ℕ) (n used : ℕ) → AllByRecursion (λ b. b < 256) bytes
        → (reading bytes ≡ Value n used) ↔ IsSpelledAt bytes n used }
{}

/// An answer but `Short` stays, whatever follows.
pub fn answers_stay()
    ensures { (bytes rest : List ℕ) → (reading bytes ≡ Short → ⊥) → reading (bytes ++ rest) ≡ reading bytes }
{}
