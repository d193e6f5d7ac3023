ghost use Rattle.std.specs.Prelude.{◌≡◌};
ghost use Rattle.std.specs.Option.{SomeIff};
ghost use Rattle.ots_outside.specs.SmallBytes.{IsSmall};

use crate::small_bytes::SmallBytes;
use std::marker::Model;

/// A commitment that a calendar is asked for: 1 to 64 bytes.
///
/// Contracts see the list of these bytes.
#[derive(Clone, Copy, Debug)]
pub struct Wanted {
    kept: SmallBytes,
}

impl Model for Wanted {
    ghost use Rattle.std.specs.Prelude.{ℕ, List};

    ghost Value = { List ℕ };

    ghost view = { λ wanted. wanted.kept };

    ghost inverse = { λ bytes. record { kept = bytes } };
}

impl Wanted {
    /// These bytes as a commitment that is asked for: `None` exactly where they are none or more
    /// than 64.
    pub fn new(bytes: &[u8]) -> Option<Wanted>
        ensures { SomeIff result (IsSmall bytes.now) bytes.now }
    {
        match SmallBytes::new(bytes) {
            Some(kept) => Some(Wanted { kept }),
            None => None,
        }
    }

    /// The bytes, 1 to 64 of them.
    pub fn bytes(&self) -> &[u8]
        ensures bytes { result.now ≡ self.now }
        ensures limits { IsSmall self.now }
    {
        self.kept.bytes()
    }
}
