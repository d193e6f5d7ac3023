//! A tree, kept as its tokens.
ghost use Rattle.std.specs.Prelude.{◌≡◌, ◌<◌, IfOk, IfErr, length, slice_index};
ghost use Rattle.std.specs.List.{AllByRecursion};
ghost use Rattle.ots_tree.specs.Wire.{IsPre, IsToken};
ghost use Rattle.ots_tree.specs.Kept.{IsKept, beside};
ghost use Rattle.ots_tree.specs.LastItem.{IsLastZero};
ghost use Rattle.ots_tree.specs.Listed.{IsListed};
ghost use Rattle.ots_tree.specs.Made.{IsBeside};
ghost use Rattle.ots_tree.specs.OpenDepths.{one_more};
ghost use Rattle.ots_tree.specs.Walk.{IsStep, open_at};

use crate::token::{Token, limits_of_token};
use crate::walk::Walk;
use ots_base::OutOfMemory;
use std::alloc::Global;
use std::marker::Model;

/// The tree of a timestamp: a node of one or more items, each an attestation, or an operation with
/// the node of its result.
///
/// Contracts see it as the list of its tokens in preorder, which determines it.
#[derive(Debug, Drop)]
pub struct Tree {
    /// The tokens in preorder.
    tokens: Vec<Token>,
    /// Beside each token the number of operations before it on its path, 2^32 - 1 for a larger one.
    depths: Vec<u32>,
}

impl Model for Tree {
    ghost use Rattle.std.specs.Prelude.{List};
    ghost use Rattle.ots_tree.specs.declared.token.Token.{Token};
    ghost use Rattle.ots_tree.specs.Kept.{IsKept};

    ghost Value = { List Token };

    ghost view = { λ a. a.tokens.items };

    ghost invariant = { λ a. IsKept a.tokens.items a.depths.items };
}

/// The tree with these tokens, which are those of some tree in preorder. Beside them it keeps four
/// bytes a token in memory of `alloc`, and while it counts it takes as much again for each fork whose
/// node is open.
pub fn from_tokens(alloc: Global, tokens: Vec<Token>) -> Result<Tree, OutOfMemory>
    requires { IsPre tokens.items }
    ensures { IfOk result (λ tree. tree ≡ tokens.items) }
{
    let depths = depths_of(alloc, &tokens)?;
    Ok(Tree { tokens, depths })
}

impl Tree {
    /// The tree with these tokens, and the numbers beside them.
    pub(crate) fn kept(tokens: Vec<Token>, depths: Vec<u32>) -> Tree
        requires { IsKept tokens.items depths.items }
        ensures { result ≡ tokens.items }
    {
        Tree { tokens, depths }
    }

    /// The tokens in preorder, at least one. It takes no memory.
    pub fn tokens(&self) -> &[Token]
        ensures tokens { result.now ≡ self.now }
        ensures pre { IsPre self.now }
        ensures limits { AllByRecursion IsToken self.now }
    {
        self.tokens.as_slice()
    }

    /// Beside each token the number of operations before it on its path. A number over 2^32 - 1 is
    /// given as 2^32 - 1. So, side by side, `tokens` and these are what `listed` copies. It takes no
    /// memory.
    pub fn depths(&self) -> &[u32]
        ensures kept { IsKept self.now result.now }
        ensures listed { IsListed self.now (beside self.now result.now) }
        ensures length { length result.now ≡ length self.now }
    {
        self.depths.as_slice()
    }

    /// The tokens, which the tree gives up.
    pub(crate) fn into_tokens(self) -> Vec<Token>
        ensures tokens { result.items ≡ self }
        ensures pre { IsPre self }
    {
        let Tree { tokens, depths: _ } = self;
        tokens
    }

    /// An equal tree, in memory of this one's allocator.
    pub fn copy(&self) -> Result<Tree, OutOfMemory>
        ensures { IfOk result (λ copied. copied ≡ self.now) }
    {
        let tokens = copy_tokens(*self.tokens.allocator(), &self.tokens)?;
        let depths = self.depths.clone()?;
        Ok(Tree { tokens, depths })
    }
}

/// The node with the items of the first tree and then those of the second. So it has the paths of
/// the first, and then those of the second.
///
/// The tokens of both are moved and none of them is copied, into memory of the first one's allocator.
/// It takes time for the last item of the first tree and for the second, and not for the other items
/// of the first, as long as its memory need not grow.
pub fn beside(first: Tree, second: Tree) -> Result<Tree, OutOfMemory>
    ensures { IfOk result (IsBeside first second) }
{
    let Tree {
        mut tokens,
        mut depths,
    } = first;
    let Tree {
        tokens: mut more_tokens,
        depths: mut more_depths,
    } = second;
    let place = last_item(&depths);
    tokens.insert(place, Token::Fork)?;
    depths.insert(place, 0)?;
    tokens.append(&mut more_tokens)?;
    depths.append(&mut more_depths)?;
    Ok(Tree { tokens, depths })
}

/// Where the last item of the root begins: at the last token that has no operation before it.
fn last_item(depths: &[u32]) -> usize
    requires some { 0 < length depths.now }
    requires first { slice_index depths.now 0 ≡ 0 }
    ensures { IsLastZero depths.now result }
{
    let mut place = depths.len() - 1;
    while depths[place] != 0 {
        place -= 1;
    }
    place
}

/// Equal tokens in the same order.
fn copy_tokens(alloc: Global, tokens: &[Token]) -> Result<Vec<Token>, OutOfMemory>
    ensures { IfOk result (λ copied. copied.items ≡ tokens.now) }
{
    let mut copied = Vec::with_capacity(alloc, tokens.len())?;
    for token in tokens {
        copied.push(token.copy()?)?;
    }
    Ok(copied)
}

/// The number of operations before each token.
fn depths_of(alloc: Global, tokens: &[Token]) -> Result<Vec<u32>, OutOfMemory>
    requires { IsPre tokens.now }
    ensures { IfOk result (λ depths. IsKept tokens.now depths.items) }
{
    let mut depths = Vec::with_capacity(alloc, tokens.len())?;
    let mut walk = Walk::begin(alloc, 0);
    for token in tokens {
        limits_of_token(token);
        depths.push(walk.last())?;
        count(&mut walk, token)?;
    }
    Ok(depths)
}

/// Counts one more token. Whether a node is open after it, as one is after each token of a tree but
/// the last. Without memory the walk stays as it is.
pub(crate) fn count(walk: &mut Walk<u32>, token: &Token) -> Result<bool, OutOfMemory>
    ensures step { IfOk result (IsStep one_more token.now walk.old walk.new) }
    ensures stays { IfErr result (λ _. open_at walk.new ≡ open_at walk.old) }
{
    match token {
        Token::Fork => walk.fork()?,
        Token::Op(_) => walk.lead(walk.last().saturating_add(1)),
        Token::Attestation(_) => return Ok(walk.close()),
    }
    Ok(true)
}
