//! SHA-256 twice.
ghost use Rattle.std.specs.Prelude.{◌≡◌, ◌<◌, ◌^◌, length};
ghost use Rattle.ots_headers.specs.DoubleSha256.{double_sha256};

use sha2::{Digest, Sha256};

/// SHA-256 of the SHA-256 of these bytes. SHA-256 is of fewer than 2^61 bytes (FIPS 180-4).
pub fn double_sha256(bytes: &[u8]) -> [u8; 32]
    requires { length bytes.now < 2 ^ 61 }
    ensures { result ≡ double_sha256 bytes.now }
{
    let once = Sha256::digest(bytes);
    Sha256::digest(once.as_slice())
}

/// The hash of the block with this header: SHA-256 twice, in the order in which Bitcoin keeps its
/// bytes. The usual text of a block hash has the bytes from the last to the first.
pub fn block_hash(header: &[u8; 80]) -> [u8; 32]
    ensures { result ≡ double_sha256 header.now }
{
    double_sha256(header)
}
