//! A message that is hashed whole.

ghost use Rattle.std.specs.Prelude.{◌≡◌, ◌^◌, ◌<◌, length};
ghost use Rattle.ots_ripemd.specs.Ripemd160.{ripemd160};

use crate::hasher::Ripemd160;

/// The RIPEMD-160 digest of `bytes`, of which there are fewer than 2^61.
pub fn ripemd160(bytes: &[u8]) -> [u8; 20]
    requires { length bytes.now < 2 ^ 61 }
    ensures { result ≡ ripemd160 bytes.now }
{
    let mut hasher = Ripemd160::new();
    hasher.update(bytes);
    hasher.finalize()
}
