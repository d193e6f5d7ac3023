//! The digest of a file.
ghost use Rattle.std.specs.Prelude.{◌≡◌, length, bytes_eq};
ghost use Rattle.std.specs.Option.{SomeIff};
ghost use Rattle.std.specs.Cmp.{on_equiv, on_per, partial_equiv_from_equiv};
ghost use Rattle.std.specs.Cmp.Lexicographic.{nat_list_eq_equiv};
ghost use Rattle.ots_ops.specs.DigestLength.{IsDigestLength};

use std::marker::Model;

/// The digest of a file: 20 bytes, as SHA-1 and RIPEMD-160 make it, or 32, as SHA-256 does.
///
/// Contracts see the list of its bytes.
#[derive(Clone, Copy, Debug)]
pub struct Digest {
    kept: Kept,
}

/// The bytes, by how many they are.
#[derive(Clone, Copy, Debug)]
enum Kept {
    Twenty([u8; 20]),
    ThirtyTwo([u8; 32]),
}

impl Model for Digest {
    ghost use Rattle.std.specs.Prelude.{ℕ, List};
    ghost use Rattle.ots_ops.specs.Kept.{bytes_of, HasLength, kept_of, kept_again};

    ghost Value = { List ℕ };

    ghost view = { λ d. bytes_of d.kept };

    ghost invariant = { λ d. HasLength d.kept };

    ghost inverse = { λ bytes. record { kept = kept_of bytes } };

    ghost inverse_ok = { λ d h. kept_again d h };
}

impl Digest {
    /// The digest of these bytes: `None` exactly where they are neither 20 nor 32.
    pub fn new(bytes: &[u8]) -> Option<Digest>
        ensures { SomeIff result (IsDigestLength (length bytes.now)) bytes.now }
    {
        if let Ok(twenty) = <[u8; 20]>::try_from(bytes) {
            return Some(Digest {
                kept: Kept::Twenty(twenty),
            });
        }
        match <[u8; 32]>::try_from(bytes) {
            Ok(thirty_two) => Some(Digest {
                kept: Kept::ThirtyTwo(thirty_two),
            }),
            Err(_) => None,
        }
    }

    /// The digest of these 20 bytes.
    pub(crate) fn twenty(bytes: [u8; 20]) -> Digest
        ensures { result ≡ bytes }
    {
        Digest {
            kept: Kept::Twenty(bytes),
        }
    }

    /// The digest of these 32 bytes.
    pub(crate) fn thirty_two(bytes: [u8; 32]) -> Digest
        ensures { result ≡ bytes }
    {
        Digest {
            kept: Kept::ThirtyTwo(bytes),
        }
    }

    /// The bytes, 20 or 32.
    pub fn bytes(&self) -> &[u8]
        ensures bytes { result.now ≡ self.now }
        ensures length { IsDigestLength (length self.now) }
    {
        match &self.kept {
            Kept::Twenty(bytes) => bytes.as_slice(),
            Kept::ThirtyTwo(bytes) => bytes.as_slice(),
        }
    }
}

impl PartialEq for Digest {
    ghost eq = { λ a b. bytes_eq a b };

    ghost laws = { partial_equiv_from_equiv nat_list_eq_equiv };

    fn eq(&self, other: &Digest) -> bool {
        self.bytes() == other.bytes()
    }
}

impl Eq for Digest {
    ghost laws = { nat_list_eq_equiv };
}
