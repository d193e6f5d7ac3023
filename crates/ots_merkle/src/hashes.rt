//! The hashes of nodes.
ghost use Rattle.std.specs.Prelude.{◌≡◌};
ghost use Rattle.ots_merkle.specs.Hashes.{node, block_node};

use sha2::{Digest, Sha256};

/// The hash of a node of a calendar's tree over those of its two children.
pub(crate) fn node(left: &[u8; 32], right: &[u8; 32]) -> [u8; 32]
    ensures { result ≡ node left.now right.now }
{
    let mut hasher = Sha256::new();
    hasher.update(left);
    hasher.update(right);
    hasher.finalize()
}

/// The hash of a node of a block's tree over those of its two children.
pub(crate) fn block_node(left: &[u8; 32], right: &[u8; 32]) -> [u8; 32]
    ensures { result ≡ block_node left.now right.now }
{
    let once = node(left, right);
    Sha256::digest(once.as_slice())
}
