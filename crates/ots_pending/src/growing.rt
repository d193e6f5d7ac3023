//! Putting the trees that were given into a tree.
ghost use Rattle.std.specs.Prelude.{◌≡◌, ◌≤◌, ◌<◌, ◌++◌, ◌∷◌, [], ◌-◌, ◌^◌, List, length, option_map, OnOk, IfOk};
ghost use Rattle.std.specs.Prelude.{IsTrue, Option, false};
ghost use Rattle.std.specs.Option.{option_copied};
ghost use Rattle.ots_tree.specs.Kept.{IsKept as IsKeptTree, beside};
ghost use Rattle.ots_tree.specs.PendingWalk.{ended};
ghost use Rattle.ots_tree.specs.Wire.{Node, pre};
ghost use Rattle.ots_pending.specs.Grown.{is_fork, length_put, next_after, put_ready, tree_at, turned, AreReady};
ghost use Rattle.ots_pending.specs.Grown.{ArePut, AreTrees, Grows, IsPutFor, IsReady, IsTree, IsWithin, KeepsPath};
ghost use Rattle.ots_pending.specs.Listed.{pairs_in, IsKept};
ghost use Rattle.ots_pending.specs.OnPath.{AreNumbers};

use crate::finding::pair_of;
use crate::listing::Listing;
use crate::pairs::{Pairs, path_from};
use crate::path::Path;
use crate::walk::follow;
use ots_attest::{Attestation, Uri};
use ots_base::OutOfMemory;
use ots_ops::Message;
use ots_tree::{Token, Tree, beside, single, spelled_length};
use std::alloc::Global;

/// Where trees are put into a tree.
#[derive(Clone, Copy)]
pub(crate) struct Window {
    /// The number of the first path at whose end a tree is put, from 0, in preorder.
    pub(crate) from: usize,
    /// No tree is put any more once those that were put are spelled in more bytes than these.
    pub(crate) room: u64,
}

/// What a tree grew to.
#[derive(Drop)]
pub(crate) struct Growth {
    /// The tokens.
    pub(crate) tokens: Vec<Token>,
    /// The number of the first path after the window.
    pub(crate) next: usize,
    /// Whether there is no such path.
    pub(crate) is_whole: bool,
}

/// The tokens of a tree with the items of the trees that were given at those places of their pairs that are in
/// a window, from a digest. Where a path is left after the window, the window has one at least.
pub(crate) fn grown(
    alloc: Global,
    tokens: &[Token],
    depths: &[u32],
    digest: Message,
    listing: &Listing,
    ready: &[Option<Tree>],
    window: Window,
) -> Result<Growth, OutOfMemory>
    requires tree { IsKeptTree tokens.now depths.now }
    requires kept { IsKept listing.now }
    ensures grows { (given : List (Option Node)) → ArePut (pairs_in listing.now) given ready.now
        → IfOk result (Grows (pairs_in listing.now) given (digest ∷ []) (beside tokens.now depths.now) window.from) }
    ensures goes_on { IfOk result (λ made. made.is_whole ≡ false → window.from < made.next) }
    ensures within { window.from ≤ length tokens.now → IfOk result (λ made. made.next ≤ length tokens.now) }
    ensures free { window.room ≡ 2 ^ 64 - 1 → IfOk result (λ made. IsTrue made.is_whole) }
{
    let mut made = Vec::with_capacity(alloc, tokens.len())?;
    let mut path = path_from(alloc, digest)?;
    let mut after_fork = false;
    let mut length: u64 = 0;
    let mut count: usize = 0;
    let mut next = window.from;
    for (at, token) in tokens.iter().enumerate() {
        let depth = depths[at];
        let goes_on = is_within(window, count, length);
        let tree = tree_for(alloc, token, depth, &mut path, listing, ready, goes_on)?;
        put(token, after_fork, tree, &mut made)?;
        length = length.saturating_add(length_put(tree));
        after_fork = is_fork(token);
        count = ended_after(token, count);
        next = next_after(goes_on, count, next);
        follow(token, depth as usize, &mut path)?;
    }
    Ok(Growth {
        tokens: made,
        next,
        is_whole: count <= next,
    })
}

/// Whether a tree is put at the end of the next path, where so many have ended and trees of so many bytes were put.
fn is_within(window: Window, ended: usize, length: u64) -> bool
    ensures { IsWithin window.from window.room ended length result }
{
    if ended < window.from {
        return false;
    }
    length <= window.room
}

/// How many paths have ended after a token.
fn ended_after(token: &Token, before: usize) -> usize
    requires { before < 2 ^ 63 }
    ensures { result ≡ ended token.now before }
{
    match token {
        Token::Attestation(_) => before + 1,
        _ => before,
    }
}

/// The number of paths up to which trees are put: all that have ended, where the window goes on.
fn next_after(is_within: bool, ended: usize, next: usize) -> usize
    ensures { result ≡ next_after is_within ended next }
{
    if is_within { ended } else { next }
}

/// The tree for a token at this depth, where there is one for it and its place is among those that count.
pub(crate) fn tree_for<'a>(
    alloc: Global,
    token: &Token,
    depth: u32,
    path: &mut Path<'_>,
    listing: &Listing,
    ready: &'a [Option<Tree>],
    is_within: bool,
) -> Result<Option<&'a Tree>, OutOfMemory>
    requires kept { IsKept listing.now }
    requires numbers { AreNumbers listing.now.messages path.old }
    ensures path { KeepsPath listing.now.messages path.old path.new }
    ensures tree { IfOk result (λ tree. IsPutFor (pairs_in listing.now) ready.now token.now depth path.old.messages
        is_within (option_copied tree)) }
{
    if !is_within {
        return Ok(None);
    }
    let place = pair_of(alloc, token, depth, path, listing)?;
    Ok(tree_at(ready, place))
}

/// How many bytes a tree is spelled in, if there is one. A number over 2^64 - 1 is given as 2^64 - 1.
pub(crate) fn length_put(tree: Option<&Tree>) -> u64
    ensures { result ≡ length_put (option_copied tree.entry) }
{
    match tree {
        Some(tree) => spelled_length(tree),
        None => 0,
    }
}

/// The tree that is ready at a place.
fn tree_at(ready: &[Option<Tree>], place: Option<usize>) -> Option<&Tree>
    ensures { option_copied result ≡ tree_at ready.now place }
{
    ready.get(place?)?.as_ref()
}

/// Puts a token, or in its place the tree that is ready for it.
fn put(
    token: &Token,
    after_fork: bool,
    ready: Option<&Tree>,
    made: &mut Vec<Token>,
) -> Result<(), OutOfMemory>
    ensures { OnOk result (made.new.items ≡ made.old.items ++ put_ready after_fork token.now
        (option_copied ready.entry)) }
{
    match ready {
        Some(tree) => put_items(tree.tokens(), after_fork, made),
        None => {
            made.push(token.copy()?)?;
            Ok(())
        }
    }
}

/// Puts the tokens of items of which the last is an attestation: this first, where a fork stands
/// before.
fn put_items(tokens: &[Token], after_fork: bool, made: &mut Vec<Token>) -> Result<(), OutOfMemory>
    ensures { OnOk result (made.new.items ≡ made.old.items ++ turned after_fork tokens.now) }
{
    if !after_fork {
        return copy_to(tokens, made);
    }
    let Some((last, items)) = tokens.split_last() else {
        return Ok(());
    };
    made.push(last.copy()?)?;
    copy_to(items, made)
}

/// Adds copies of these tokens at the end.
fn copy_to(tokens: &[Token], made: &mut Vec<Token>) -> Result<(), OutOfMemory>
    ensures { OnOk result (made.new.items ≡ made.old.items ++ tokens.now) }
{
    for token in tokens {
        made.push(token.copy()?)?;
    }
    Ok(())
}

/// Whether the token is a fork.
fn is_fork(token: &Token) -> bool
    ensures { result ≡ is_fork token.now }
{
    matches!(token, Token::Fork)
}

/// The trees that are ready to be put at the places of their pairs: each with the pending attestation
/// after its items.
pub(crate) fn ready_trees(
    alloc: Global,
    pairs: &Pairs,
    trees: &[Option<Tree>],
) -> Result<Vec<Option<Tree>>, OutOfMemory>
    requires { length trees.now ≡ length pairs.now }
    ensures ready { IfOk result (λ ready. AreReady pairs.now trees.now ready.items) }
    ensures trees { IfOk result (λ _. AreTrees trees.now) }
{
    let mut ready = Vec::with_capacity(alloc, trees.len())?;
    for (i, tree) in trees.iter().enumerate() {
        ready.push(ready_tree(alloc, tree, pairs.uri(i))?)?;
    }
    Ok(ready)
}

/// The tree that is ready to be put at the places of a pair with this URI.
fn ready_tree(alloc: Global, tree: &Option<Tree>, uri: &Uri) -> Result<Option<Tree>, OutOfMemory>
    ensures ready { IfOk result (λ ready. (t : Option Node) → option_map pre t ≡ tree.now → IsReady uri.now t ready) }
    ensures tree { IfOk result (λ _. IsTree tree.now) }
{
    let Some(tree) = tree else {
        return Ok(None);
    };
    let pending = single(alloc, &[], Attestation::Pending(uri.copy()?))?;
    Ok(Some(beside(tree.copy()?, pending)?))
}
