//! How long a completed proof is at least, before it is made.
ghost use Rattle.std.specs.Prelude.{◌≡◌, ◌≤◌, ◌∷◌, [], List, Option, IfOk, map, length, option_map};
ghost use Rattle.std.specs.Option.{option_copied};
ghost use Rattle.ots_canon.specs.Canonical.{IsCanonOf};
ghost use Rattle.ots_pending.specs.Completed.{IsCompleted};
ghost use Rattle.ots_pending.specs.Least.{around, disjoint_length, taken_after, AreCanonical};
ghost use Rattle.ots_pending.specs.Listed.{pairs_in, IsKept};
ghost use Rattle.ots_tree.specs.Kept.{IsKept as IsKeptTree, beside};
ghost use Rattle.ots_tree.specs.Wire.{Node, pre, spelled};
ghost use Rattle.ots_tree.specs.declared.token.Token.{Token};

use crate::growing::{length_put, tree_for};
use crate::listing::Listing;
use crate::pairs::{Pairs, path_from};
use crate::walk::follow;
use ots_base::OutOfMemory;
use ots_ops::Message;
use ots_tree::{Detached, Token, Tree, limits_of_detached};
use std::alloc::Global;

/// A number of bytes that the completed proof is spelled in at least, from the proof's canonical form and
/// canonical trees: those of the trees at places of which none stands in the node of another or below it. A
/// number over 2^64 - 1 is given as 2^64 - 1. No tree is put anywhere, so it takes memory for the messages on
/// one path alone.
pub(crate) fn at_least(
    alloc: Global,
    proof: &Detached,
    form: &Tree,
    pairs: &Pairs,
    trees: &[Option<Tree>],
) -> Result<u64, OutOfMemory>
    requires form { IsCanonOf proof.now.tree form.now }
    requires trees { length trees.now ≡ length pairs.now }
    requires canonical { AreCanonical trees.now }
    ensures { (made : List Token) → IsCompleted proof.now pairs.now trees.now made
        → IfOk result (λ least. least ≤ length (spelled made)) }
{
    limits_of_detached(proof);
    let digest = Message::new(alloc, proof.digest.bytes())?;
    disjoint_length(
        alloc,
        form.tokens(),
        form.depths(),
        digest,
        pairs.listing(),
        trees,
    )
}

/// How many bytes the trees at places in a tree are spelled in, from a digest. In each node the first place
/// with a tree counts, and then no other place in that node or below it does.
fn disjoint_length(
    alloc: Global,
    tokens: &[Token],
    depths: &[u32],
    digest: Message,
    listing: &Listing,
    trees: &[Option<Tree>],
) -> Result<u64, OutOfMemory>
    requires tree { IsKeptTree tokens.now depths.now }
    requires kept { IsKept listing.now }
    ensures { (given : List (Option Node)) → map (option_map pre) given ≡ trees.now
        → length given ≡ length (pairs_in listing.now)
        → IfOk result (λ total. total ≤
        disjoint_length (pairs_in listing.now) given None (digest ∷ []) (beside tokens.now depths.now)) }
{
    let mut path = path_from(alloc, digest)?;
    let mut taken = None;
    let mut total: u64 = 0;
    for (at, token) in tokens.iter().enumerate() {
        let depth = depths[at];
        let node = around(taken, depth);
        let is_free = node.is_none();
        let tree = tree_for(alloc, token, depth, &mut path, listing, trees, is_free)?;
        total = total.saturating_add(length_put(tree));
        taken = taken_after(node, depth, tree);
        follow(token, depth as usize, &mut path)?;
    }
    Ok(total)
}

/// The depth of the node in which a tree was counted, where a token at this depth is in it or below it.
fn around(taken: Option<u32>, depth: u32) -> Option<u32>
    ensures { result ≡ around taken depth }
{
    match taken {
        Some(node) if node <= depth => taken,
        _ => None,
    }
}

/// The same after a token at this depth, at which a tree may be counted.
fn taken_after(node: Option<u32>, depth: u32, tree: Option<&Tree>) -> Option<u32>
    ensures { result ≡ taken_after node depth (option_copied tree.entry) }
{
    match tree {
        Some(_) => Some(depth),
        None => node,
    }
}
