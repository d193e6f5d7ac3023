//! The canonical form of a tree.
ghost use Rattle.std.specs.Prelude.{IfOk};
ghost use Rattle.ots_canon.specs.Canonical.{IsCanonOf};

use crate::merging::merged_tokens;
use crate::tokens::Tokens;
use ots_base::OutOfMemory;
use ots_tree::{Tree, from_tokens};
use std::alloc::Global;

/// The canonical tree with the same set of paths.
///
/// In each of its nodes the attestations come first, in their order, then the operations, in theirs,
/// and no item stands twice: equal operations are one, whose result has the items of both nodes.
pub fn canon(alloc: Global, tree: &Tree) -> Result<Tree, OutOfMemory>
    ensures { IfOk result (λ form. IsCanonOf tree.now form) }
{
    let tokens = Tokens::new(alloc, tree.tokens(), &[])?;
    let form = merged_tokens(alloc, &tokens, &[0])?;
    from_tokens(alloc, form)
}
