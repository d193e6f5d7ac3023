ghost use Rattle.std.specs.Prelude.{◌≡◌, length, MatchResult};
ghost use Rattle.ots_outside.specs.SmallBytes.{IsSmall};

use crate::small_bytes::SmallBytes;
use std::marker::Model;

/// The number of bytes of something that is no digest: not 1 to 64.
#[derive(Clone, Copy, Debug, PartialEq, Eq)]
pub struct DigestLength(pub u64);

/// A digest that is handed in to be timestamped: 1 to 64 bytes.
///
/// Contracts see the list of these bytes.
#[derive(Clone, Copy, Debug)]
pub struct Leaf {
    kept: SmallBytes,
}

impl Model for Leaf {
    ghost use Rattle.std.specs.Prelude.{ℕ, List};

    ghost Value = { List ℕ };

    ghost view = { λ leaf. leaf.kept };

    ghost inverse = { λ bytes. record { kept = bytes } };
}

impl Leaf {
    /// The leaf of these bytes, or `DigestLength` with their number exactly where they are none or
    /// more than 64.
    pub fn new(bytes: &[u8]) -> Result<Leaf, DigestLength>
        ensures { MatchResult result (λ leaf. IsSmall bytes.now × (leaf ≡ bytes.now))
            (λ refused. ¬ (IsSmall bytes.now) × (refused.0 ≡ length bytes.now)) }
    {
        match SmallBytes::new(bytes) {
            Some(kept) => Ok(Leaf { kept }),
            None => Err(DigestLength(bytes.len() as u64)),
        }
    }

    /// The bytes, 1 to 64 of them.
    pub fn bytes(&self) -> &[u8]
        ensures bytes { result.now ≡ self.now }
        ensures limits { IsSmall self.now }
    {
        self.kept.bytes()
    }
}
