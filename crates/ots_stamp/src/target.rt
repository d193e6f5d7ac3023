//! A file that is stamped.
ghost use Rattle.std.specs.Prelude.{◌≡◌, length};

use ots_ops::Digest;

/// A file that is stamped.
#[derive(Clone, Copy, Debug)]
pub struct Target {
    /// The SHA-256 of the file.
    pub digest: Digest,
    /// Sixteen bytes that nobody can guess, so that the leaf tells nobody the digest.
    pub nonce: [u8; 16],
    pub ghost is_sha256: { length digest ≡ 32 },
    pub ghost is_nonce: { length nonce ≡ 16 },
}
