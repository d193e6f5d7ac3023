//! The hash of a file.
ghost use Rattle.std.specs.Prelude.{◌≡◌};
ghost use Rattle.ots_ops.specs.HashOp.{tag, digest_length};

use crate::tags::{RIPEMD160_TAG, SHA1_TAG, SHA256_TAG};

/// A hash that makes the digest of a file, and that a proof may apply to a message.
#[derive(Clone, Copy, Debug, PartialEq, Eq)]
pub enum HashOp {
    /// SHA-1 (FIPS 180-4).
    Sha1,
    /// RIPEMD-160 (Dobbertin, Bosselaers and Preneel).
    Ripemd160,
    /// SHA-256 (FIPS 180-4).
    Sha256,
}

impl HashOp {
    /// The byte that stands for this hash in a proof.
    pub fn tag(self) -> u8
        ensures { result ≡ tag self }
    {
        match self {
            HashOp::Sha1 => SHA1_TAG,
            HashOp::Ripemd160 => RIPEMD160_TAG,
            HashOp::Sha256 => SHA256_TAG,
        }
    }

    /// How many bytes a digest of this hash has.
    pub fn digest_length(self) -> usize
        ensures { result ≡ digest_length self }
    {
        match self {
            HashOp::Sha1 | HashOp::Ripemd160 => 20,
            HashOp::Sha256 => 32,
        }
    }
}
