ghost use Rattle.std.specs.Prelude.{◌≡◌};
ghost use Rattle.std.specs.Option.{SomeIff};
ghost use Rattle.ots_outside.specs.SmallBytes.{IsSmall};

use std::marker::Model;

/// The most bytes of a digest that a calendar is asked for or given (opentimestamps-server,
/// `otsserver/rpc.py`, `MAX_DIGEST_LENGTH`).
pub const MAX_DIGEST: usize = 64;

/// 1 to 64 bytes, kept in place. Bytes past them are zero, so that what is kept is determined by
/// them.
#[derive(Clone, Copy, Debug)]
pub struct SmallBytes {
    bytes: [u8; MAX_DIGEST],
    length: usize,
}

impl Model for SmallBytes {
    ghost use Rattle.std.specs.Prelude.{ℕ, List, take};
    ghost use Rattle.ots_outside.specs.KeptBytes.{IsKept, kept_of, kept_again};

    ghost Value = { List ℕ };

    ghost view = { λ s. take s.length s.bytes };

    ghost invariant = { λ s. IsKept s.bytes s.length };

    ghost inverse = { λ bytes. kept_of bytes };

    ghost inverse_ok = { λ s h. kept_again s h };
}

impl SmallBytes {
    /// These bytes: `None` exactly where they are none or more than 64.
    pub fn new(bytes: &[u8]) -> Option<SmallBytes>
        ensures { SomeIff result (IsSmall bytes.now) bytes.now }
    {
        let length = bytes.len();
        if length == 0 || length > MAX_DIGEST {
            return None;
        }
        let mut kept = [0; MAX_DIGEST];
        kept[..length].copy_from_slice(bytes);
        Some(SmallBytes {
            bytes: kept,
            length,
        })
    }

    /// The bytes.
    pub fn bytes(&self) -> &[u8]
        ensures bytes { result.now ≡ self.now }
        ensures limits { IsSmall self.now }
    {
        &self.bytes[..self.length]
    }
}
