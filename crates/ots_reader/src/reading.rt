//! Reading a tree of which all bytes are there.
ghost use Rattle.std.specs.Prelude.{◌≡◌, ◌≤◌, ℕ, Ok, Err, IfOk, IfErr};
ghost use Rattle.ots_base.specs.Memory.{UnlessOutOfMemory};
ghost use Rattle.ots_tree.specs.declared.tree.Tree.{Tree};
ghost use Rattle.ots_reader.specs.TreeFault.{HasTreeFault};
ghost use Rattle.ots_reader.specs.TreeRead.{IsTreeAt, IsTreeError};
ghost use Rattle.ots_reader.specs.declared.fault.Fault.{Fault};

use crate::fault::{Fault, ReadError};
use crate::fed::Fed;
use crate::tree_reader::TreeReader;
use ots_base::{MAX_MESSAGE, MAX_OPERATIONS};
use ots_tree::{Shape, Tree};
use std::alloc::Global;

/// The tree at the start of the bytes, and how many of them it takes, whatever follows. It is
/// answered exactly where there is one that is sound for the shape. Otherwise the first token that
/// is none or can't stand where it is has a fault.
///
/// The shape is the length of the message that the tree stands below, 1 to 4096, and the number of
/// operations before it, at most 255.
pub fn read_tree(alloc: Global, bytes: &[u8], shape: Shape) -> Result<(Tree, usize), ReadError>
    requires least { 1 ≤ shape.length }
    requires greatest { shape.length ≤ MAX_MESSAGE }
    requires depth { shape.depth ≤ MAX_OPERATIONS }
    ensures ok { IfOk result (λ r. IsTreeAt shape.length shape.depth bytes.now r.0 r.1) }
    ensures err { IfErr result (λ e. IsTreeError shape.length shape.depth bytes.now e) }
    ensures accepts { (tree : Tree) (used : ℕ) → IsTreeAt shape.length shape.depth bytes.now tree used
        → UnlessOutOfMemory ReadError.OutOfMemory result (Ok (tree, used)) }
    ensures refuses { (f : Fault) → HasTreeFault shape.length shape.depth bytes.now f
        → UnlessOutOfMemory ReadError.OutOfMemory result (Err (ReadError.Fault f)) }
{
    feed_all(alloc, bytes, shape)
}

/// The tree of a reader to which all bytes are one piece.
fn feed_all(alloc: Global, bytes: &[u8], shape: Shape) -> Result<(Tree, usize), ReadError>
    requires least { 1 ≤ shape.length }
    requires greatest { shape.length ≤ MAX_MESSAGE }
    requires depth { shape.depth ≤ MAX_OPERATIONS }
    ensures ok { IfOk result (λ r. IsTreeAt shape.length shape.depth bytes.now r.0 r.1) }
    ensures err { IfErr result (λ e. IsTreeError shape.length shape.depth bytes.now e) }
{
    let mut reader = TreeReader::begin(alloc, shape)?;
    let used = match reader.feed(bytes)? {
        Fed::More => 0,
        Fed::Done(used) => used,
    };
    Ok((reader.finish()?, used))
}
