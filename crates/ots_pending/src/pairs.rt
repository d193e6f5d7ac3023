//! The pairs that a proof asks for.
ghost use Rattle.std.specs.Prelude.{◌≡◌, ◌≤◌, ◌<◌, ◌∷◌, [], ℕ, List, length, nat_eq, IfOk, Some};
ghost use Rattle.std.specs.List.{slice_get};
ghost use Rattle.ots_tree.specs.Kept.{IsKept as IsKeptTree};
ghost use Rattle.ots_pending.specs.Listed.{pairs_in, pairs_walked, IsKept};
ghost use Rattle.ots_pending.specs.OnPath.{AreNumbers};
ghost use Rattle.ots_pending.specs.Pairs.{AreAskable, ArePairs, PairAt};

use crate::adding::no_pairs;
use crate::lazy_path::LazyPath;
use crate::listing::Listing;
use crate::path::Path;
use crate::walk::{follow, note};
use ots_attest::Uri;
use ots_base::OutOfMemory;
use ots_ops::Message;
use ots_tree::{Detached, Token, limits_of_detached};
use std::alloc::Global;
use std::marker::Model;

/// What the pending paths of a proof ask calendars for: pairs of a URI and a message, each of them
/// once, in the order in which they first come in preorder.
///
/// Contracts see the list of these pairs, each with the greatest number of operations before it.
#[derive(Drop)]
pub struct Pairs {
    listing: Listing,
}

impl Model for Pairs {
    ghost use Rattle.std.specs.Prelude.{List};
    ghost use Rattle.ots_pending.specs.Listed.{pairs_in, IsKept};
    ghost use Rattle.ots_pending.specs.Pairs.{PairAt};

    ghost Value = { List PairAt };

    ghost view = { λ p. pairs_in p.listing };

    ghost invariant = { λ p. IsKept p.listing };
}

impl Pairs {
    /// The pairs as they are kept.
    pub(crate) fn listing(&self) -> &Listing
        ensures kept { IsKept result.now }
        ensures pairs { pairs_in result.now ≡ self.now }
    {
        &self.listing
    }

    /// How many pairs there are.
    pub fn len(&self) -> usize
        ensures { result ≡ length self.now }
    {
        self.listing.asked.len()
    }

    /// Whether there is none.
    pub fn is_empty(&self) -> bool
        ensures { result ≡ nat_eq (length self.now) 0 }
    {
        self.listing.asked.is_empty()
    }

    /// The URI of a pair, by its place among them, from 0.
    pub fn uri(&self, i: usize) -> &Uri
        requires { i < length self.now }
        ensures { (p : PairAt) → slice_get self.now i ≡ Some p → result.now ≡ p.pair.uri }
    {
        &self.listing.asked[i].uri
    }

    /// The message of a pair.
    pub fn message(&self, i: usize) -> &Message
        requires { i < length self.now }
        ensures { (p : PairAt) → slice_get self.now i ≡ Some p → result.now ≡ p.pair.message }
    {
        &self.listing.messages.items()[self.listing.asked[i].message]
    }

    /// The number of operations before a pair, where it stands deepest.
    pub fn depth(&self, i: usize) -> u32
        requires { i < length self.now }
        ensures { (p : PairAt) → slice_get self.now i ≡ Some p → result ≡ p.depth }
    {
        self.listing.asked[i].depth
    }
}

/// The pairs that the pending paths of a proof ask for.
///
/// Each operation above a pending attestation is applied at most once, and no other. The pairs lie in memory
/// of `alloc`: of each its URI, twice, and each message once, however many pairs have it and wherever it
/// stands. All URIs together are no longer than the proof. A message has at most 4096 bytes, and a pending
/// attestation with a fork takes at least 12, so that the messages of a proof of 4 MiB are fewer than
/// 350,000, and 1.4 GiB at the very most. While it walks it keeps at most one message for each node on one
/// path, at most 256.
pub fn pending_pairs(alloc: Global, proof: &Detached) -> Result<Pairs, OutOfMemory>
    ensures pairs { IfOk result (ArePairs proof.now) }
    ensures askable { IfOk result AreAskable }
{
    limits_of_detached(proof);
    let digest = Message::new(alloc, proof.digest.bytes())?;
    let listing = walked(alloc, proof.tree.tokens(), proof.tree.depths(), digest)?;
    Ok(Pairs { listing })
}

/// The pairs of the pending paths of the tree with these tokens, from a digest.
fn walked(
    alloc: Global,
    tokens: &[Token],
    depths: &[u32],
    digest: Message,
) -> Result<Listing, OutOfMemory>
    requires { IsKeptTree tokens.now depths.now }
    ensures kept { IfOk result IsKept }
    ensures pairs { IfOk result (λ listing. pairs_in listing ≡ pairs_walked tokens.now depths.now digest) }
{
    let mut path = path_from(alloc, digest)?;
    let mut listing = no_pairs(alloc);
    for (at, token) in tokens.iter().enumerate() {
        let depth = depths[at];
        note(alloc, token, depth, &mut path, &mut listing)?;
        follow(token, depth as usize, &mut path)?;
    }
    Ok(listing)
}

/// The path that has this message alone.
pub(crate) fn path_from<'a>(alloc: Global, digest: Message) -> Result<Path<'a>, OutOfMemory>
    ensures message { IfOk result (λ path. path.messages ≡ digest ∷ []) }
    ensures none { IfOk result (λ path. (all : List (List ℕ)) → AreNumbers all path) }
{
    let messages = LazyPath::begin(alloc, digest)?;
    let mut numbers = Vec::new(alloc);
    numbers.push(None)?;
    Ok(Path { messages, numbers })
}
