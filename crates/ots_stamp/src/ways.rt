//! Leaves under one root, and the ways to it.
ghost use Rattle.std.specs.Prelude.{◌≡◌, ◌≤◌, ◌<◌, ◌+◌, ◌*◌, ◌/◌, ◌^◌, ◌∷◌, ◌++◌, ℕ, length, map, take, drop, [], IfOk};
ghost use Rattle.std.specs.Prelude.{OnErr};
ghost use Rattle.sha2.specs.Sha256.{sha256};
ghost use Rattle.ots_asking.specs.Conversation.{Converse, ConverseUpTo};
ghost use Rattle.ots_asking.specs.Outcome.{AreSound};
ghost use Rattle.ots_merkle.specs.CalendarTree.{path, root};
ghost use Rattle.ots_stamp.specs.Stamping.{to_stamp};
ghost use Rattle.ots_stamp.specs.Ways.{IsDepth, way_from};

use crate::stamping::stamp_with;
use ots_address::Address;
use ots_asking::Outcome;
use ots_base::OutOfMemory;
use ots_growing_tree::{GrowingTree, RUN};
use ots_ops::{Arg, Digest, Op, Ops};
use ots_outside::Dialer;
use sha2::{Digest as _, Sha256};
use std::alloc::Global;
use std::marker::Model;

/// Leaves that stand under one root, which alone calendars are sent, and the way from each to it. A
/// leaf is SHA-256 of a digest with a nonce after it.
///
/// It keeps the leaves, 32 bytes each, and of the tree over them some 3 bytes a leaf. A path is made
/// when it is asked for.
///
/// Contracts see the list of the leaves.
#[derive(Drop)]
pub struct Ways {
    leaves: Vec<[u8; 32]>,
    tree: GrowingTree,
    root: Digest,
    depth: u32,
}

impl Model for Ways {
    ghost use Rattle.std.specs.Prelude.{ℕ, List};
    ghost use Rattle.ots_stamp.specs.Ways.{KeepsWays};

    ghost Value = { List (List ℕ) };

    ghost view = { λ w. w.leaves.items };

    ghost invariant = { λ w. KeepsWays w.leaves.items w.tree.leaves w.root w.depth };
}

impl Ways {
    /// The ways of these leaves, at least one and fewer than 2^32. It takes one hash an inner node of the
    /// tree over them.
    pub fn new(alloc: Global, leaves: Vec<[u8; 32]>) -> Result<Ways, OutOfMemory>
        requires least { 1 ≤ length leaves.items }
        requires most { length leaves.items < 2 ^ 32 }
        ensures { IfOk result (λ ways. ways ≡ leaves.items) }
    {
        let tree = tree_over(alloc, &leaves)?;
        let root = tree.root().unwrap();
        // The path of the first leaf is the longest.
        let longest = tree.path(alloc, 0, run_of(&leaves, 0))?;
        Ok(Ways {
            leaves,
            tree,
            root: Digest::new(&root).unwrap(),
            depth: longest.items().len() as u32 + 2,
        })
    }

    /// The root over the leaves.
    pub fn root(&self) -> Digest
        ensures { result ≡ root self.now }
    {
        self.root
    }

    /// How many operations the longest way from a digest to the root has: 2, and 2 for each level of the
    /// tree above its leaves.
    pub fn depth(&self) -> u32
        ensures depth { IsDepth self.now result }
        ensures most { result ≤ 66 }
        ensures shallow { (h : ℕ) → length self.now ≤ 2 ^ h → result ≤ 2 * h + 2 }
    {
        self.depth
    }

    /// The path of a leaf: the operations from it to the root. It takes some 100 hashes at most, however
    /// many leaves there are.
    pub fn path(&self, alloc: Global, i: usize) -> Result<Ops, OutOfMemory>
        requires { i < length self.now }
        ensures { IfOk result (λ ops. ops ≡ path self.now i) }
    {
        self.tree.path(alloc, i, run_of(&self.leaves, i))
    }

    /// The way from the digest of a leaf to the root: the leaf's nonce is put after the digest, that is
    /// hashed, and the leaf's path follows.
    pub fn way(&self, alloc: Global, i: usize, nonce: &[u8; 16]) -> Result<Ops, OutOfMemory>
        requires { i < length self.now }
        ensures { IfOk result (λ ops. ops ≡ way_from self.now i nonce.now) }
    {
        let path = self.path(alloc, i)?;
        let mut ops = Ops::new(alloc);
        ops.push(Op::Append(Arg::copy_of(alloc, nonce)?))?;
        ops.push(Op::Sha256)?;
        ops.extend(path.items())?;
        Ok(ops)
    }

    /// Sends the root to each calendar in order, as [`stamp_with`] does.
    pub fn ask<D: Dialer>(
        &self,
        alloc: Global,
        dialer: &mut D,
        calendars: &[Address],
    ) -> Result<Vec<Outcome>, OutOfMemory>
        ensures asked { IfOk result (λ outcomes. (depth : ℕ) × IsDepth self.now depth
            × Converse D.told D.faults (map (to_stamp (root self.now) depth) calendars.now) dialer.old dialer.new
            outcomes.items) }
        ensures broken_off { OnErr result ((depth : ℕ) × IsDepth self.now depth
            × ConverseUpTo D.told D.faults (map (to_stamp (root self.now) depth) calendars.now) dialer.old
            dialer.new) }
        ensures sound { IfOk result (λ outcomes. (depth : ℕ) × IsDepth self.now depth
            × AreSound (length (root self.now)) depth outcomes.items) }
    {
        stamp_with(alloc, dialer, calendars, &self.root, self.depth)
    }
}

/// The leaf of a digest and its nonce: SHA-256 (FIPS 180-4) of the digest with the nonce after it.
pub fn leaf_of(digest: &[u8], nonce: &[u8; 16]) -> [u8; 32]
    requires { length digest.now ≤ 64 }
    ensures { result ≡ sha256 (digest.now ++ nonce.now) }
{
    let mut hasher = Sha256::new();
    hasher.update(digest);
    hasher.update(nonce);
    hasher.finalize()
}

/// The tree over these leaves.
fn tree_over(alloc: Global, leaves: &[[u8; 32]]) -> Result<GrowingTree, OutOfMemory>
    requires { length leaves.now < 2 ^ 32 }
    ensures { IfOk result (λ tree. tree.leaves ≡ leaves.now) }
{
    let mut tree = GrowingTree::new(alloc)?;
    tree.reserve(leaves.len())?;
    for leaf in leaves {
        tree.push(*leaf)?;
    }
    Ok(tree)
}

/// The leaves of the run of a leaf: `RUN` of them, or as many as there are.
fn run_of(leaves: &[[u8; 32]], i: usize) -> &[[u8; 32]]
    requires { i < length leaves.now }
    ensures { result.now ≡ take RUN (drop (RUN * (i / RUN)) leaves.now) }
{
    let rest = &leaves[RUN * (i / RUN)..];
    &rest[..rest.len().min(RUN)]
}
