//! A timestamp proof.
ghost use Rattle.std.specs.Prelude.{◌≡◌, length};
ghost use Rattle.ots_ops.specs.HashOp.{digest_length};
ghost use Rattle.ots_tree.specs.Sound.{IsSoundPre};

use crate::tree::Tree;
use ots_ops::{Digest, HashOp};

/// A timestamp proof of a file that is kept apart from it: the tree that stands on the digest of
/// the file (`DetachedTimestampFile` of python-opentimestamps).
///
/// The digest has the hash's length, and the tree is sound for a message of that length with no
/// operation before it.
#[derive(Drop)]
pub struct Detached {
    /// The hash of the file.
    pub hash: HashOp,
    /// The digest that it makes of the file, which is the message of the tree's root.
    pub digest: Digest,
    /// The tree of what is known of the digest.
    pub tree: Tree,
    pub ghost digest_of_hash: { length digest ≡ digest_length hash },
    pub ghost tree_sound: { ∥ IsSoundPre (length digest) 0 tree ∥₁ },
}
