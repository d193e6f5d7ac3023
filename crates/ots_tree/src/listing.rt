//! The tokens of a tree with their depths.
ghost use Rattle.std.specs.Prelude.{◌≡◌, IfOk};
ghost use Rattle.ots_tree.specs.Listed.{IsListed};
ghost use Rattle.ots_tree.specs.Kept.{IsKept, beside};

use crate::token::{Token, TokenAt};
use crate::tree::Tree;
use ots_base::OutOfMemory;
use std::alloc::Global;

/// A copy of the tokens in preorder, each with the number of operations before it on its path. A
/// number over 2^32 - 1 is given as 2^32 - 1.
pub fn listed(alloc: Global, tree: &Tree) -> Result<Vec<TokenAt>, OutOfMemory>
    ensures { IfOk result (λ listing. IsListed tree.now listing.items) }
{
    copied_beside(alloc, tree.tokens(), tree.depths())
}

/// A copy of each token, with the number that stands beside it.
fn copied_beside(
    alloc: Global,
    tokens: &[Token],
    depths: &[u32],
) -> Result<Vec<TokenAt>, OutOfMemory>
    requires { IsKept tokens.now depths.now }
    ensures { IfOk result (λ listing. listing.items ≡ beside tokens.now depths.now) }
{
    let mut listing = Vec::with_capacity(alloc, tokens.len())?;
    for (at, token) in tokens.iter().enumerate() {
        listing.push(TokenAt {
            token: token.copy()?,
            depth: depths[at],
        })?;
    }
    Ok(listing)
}
