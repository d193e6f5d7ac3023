//! Trees made of operations, an attestation, and other trees.
ghost use Rattle.std.specs.Prelude.{◌≡◌, IfOk, map};
ghost use Rattle.ots_tree.specs.Wire.{pre};
ghost use Rattle.ots_tree.specs.Made.{lone, IsUnder};

use crate::token::Token;
use crate::tree::{Tree, from_tokens};
use ots_attest::Attestation;
use ots_base::OutOfMemory;
use ots_ops::Op;
use std::alloc::Global;

/// The tree with one path: these operations, which are copied, in their order, and this attestation
/// at their end. Its tokens, and four bytes beside each, lie in memory of `alloc`.
pub fn single(alloc: Global, ops: &[Op], attestation: Attestation) -> Result<Tree, OutOfMemory>
    ensures { IfOk result (λ tree. tree ≡ pre (lone ops.now attestation)) }
{
    let mut tokens = operations(alloc, ops)?;
    tokens.push(Token::Attestation(attestation))?;
    from_tokens(alloc, tokens)
}

/// The chain of these operations, which are copied, with the tree after the last of them. Without
/// any operation it is the tree.
///
/// The tokens of the tree are moved and none of them is copied. They lie in memory of `alloc` then,
/// with four bytes beside each; while those are counted they take as much again for each fork whose
/// node is open.
pub fn under(alloc: Global, ops: &[Op], tree: Tree) -> Result<Tree, OutOfMemory>
    ensures { IfOk result (IsUnder ops.now tree) }
{
    let mut below = tree.into_tokens();
    let mut tokens = operations(alloc, ops)?;
    tokens.append(&mut below)?;
    from_tokens(alloc, tokens)
}

/// A token for each of these operations, in their order.
fn operations(alloc: Global, ops: &[Op]) -> Result<Vec<Token>, OutOfMemory>
    ensures { IfOk result (λ tokens. tokens.items ≡ map (λ o. Token.Op o) ops.now) }
{
    let mut tokens = Vec::with_capacity(alloc, ops.len())?;
    for op in ops {
        tokens.push(Token::Op(op.copy()?))?;
    }
    Ok(tokens)
}
