//! A digest that waits for its round.
ghost use Rattle.std.specs.Prelude.{◌≡◌};
ghost use Rattle.ots_gateway.specs.Ways.{leaf};

use ots_outside::Leaf;
use ots_stamp::leaf_of;

/// A digest that waits for its round.
#[derive(Clone, Copy, Debug)]
pub struct Waiting {
    /// The digest, of 1 to 64 bytes.
    pub digest: Leaf,
    /// Sixteen bytes that are hashed after the digest, so that others cannot guess it.
    pub nonce: [u8; 16],
}

impl Waiting {
    /// The leaf: SHA-256 of the digest with the nonce after it.
    pub(crate) fn leaf(&self) -> [u8; 32]
        ensures { result ≡ leaf self.now }
    {
        leaf_of(self.digest.bytes(), &self.nonce)
    }
}
