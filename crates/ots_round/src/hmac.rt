//! HMAC (RFC 2104) with SHA-256.
ghost use Rattle.std.specs.Prelude.{◌≡◌, ◌<◌, ◌≤◌, ◌-◌, ◌^◌, length};
ghost use Rattle.ots_round.specs.Hmac.{filled, masked, keyed, hmac_sha256};

use sha2::{Digest, Sha256};

/// The most bytes of a key that is not hashed first: a block of SHA-256 (FIPS 180-4).
pub const MAX_KEY: usize = 64;

/// The byte with which each byte of the key is masked before the message (RFC 2104, `ipad`).
const INNER: u8 = 0x36;

/// The byte with which each byte of the key is masked before the inner hash (RFC 2104, `opad`).
const OUTER: u8 = 0x5c;

/// HMAC-SHA256 of a message under a key of 1 to 64 bytes (RFC 2104, section 2). The message has
/// fewer than 2^61 - 64 bytes.
pub fn hmac_sha256(key: &[u8], message: &[u8]) -> [u8; 32]
    requires least { 1 ≤ length key.now }
    requires most { length key.now ≤ MAX_KEY }
    requires short { length message.now < 2 ^ 61 - 64 }
    ensures { result ≡ hmac_sha256 key.now message.now }
{
    keyed(&filled(key), message)
}

/// A key with zero bytes after it, a whole block.
pub(crate) fn filled(key: &[u8]) -> [u8; MAX_KEY]
    requires { length key.now ≤ MAX_KEY }
    ensures { result ≡ filled key.now }
{
    let mut block = [0; MAX_KEY];
    block[..key.len()].copy_from_slice(key);
    block
}

/// The keyed hash of a message, where the key fills a block.
pub(crate) fn keyed(block: &[u8; MAX_KEY], message: &[u8]) -> [u8; 32]
    ensures { result ≡ keyed block.now message.now }
{
    let mut inner = Sha256::new();
    inner.update(&masked(block, INNER));
    inner.update(message);
    let mut outer = Sha256::new();
    outer.update(&masked(block, OUTER));
    outer.update(&inner.finalize());
    outer.finalize()
}

/// A block with each byte masked.
fn masked(block: &[u8; MAX_KEY], mask: u8) -> [u8; MAX_KEY]
    ensures { result ≡ masked mask block.now }
{
    let mut bytes = *block;
    for place in 0..MAX_KEY {
        bytes[place] ^= mask;
    }
    bytes
}
