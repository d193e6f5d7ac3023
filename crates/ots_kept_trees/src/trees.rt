//! The trees over the commitments of anchors, and over those that no anchor covers yet.
ghost use Rattle.std.specs.Prelude.{◌≡◌, ◌+◌, ◌≤◌, ◌<◌, ◌^◌, ℕ, [], IfOk, IfSome, List, length};
ghost use Rattle.ots_anchor.specs.Path.{hashed};
ghost use Rattle.ots_merkle.specs.CalendarTree.{root, path};
ghost use Rattle.ots_kept_trees.specs.Kept.{AreKept, IsKept, span};

use crate::{KeptTree, Way};
use ots_base::OutOfMemory;
use ots_merkle::Peaks;
use sha2::{Digest, Sha256};
use std::alloc::Global;

/// No tree is kept over fewer commitments, which are hashed in some 100 microseconds: a tree takes 1,500
/// bytes at least.
const LEAST: usize = 64;

/// There are fewer commitments than this.
const MOST_COMMITMENTS: usize = 4_294_967_296;

/// The trees that a calendar keeps. They make its answers fast and nothing else: without them it would
/// hash all commitments of an anchor for each, and answer the same.
///
/// A tip is over all that no anchor covers when it is asked for, and an anchor is of a tip. So the first
/// commitments of anchors never fall, and anchors that have the same one share a tree. Of the trees that
/// no anchor has, only the last is kept. So all trees together are over what the anchors cover, over what
/// came between each tip and its anchor, which the next anchor mostly covers too, and over what is open.
#[derive(Drop)]
pub struct Trees {
    alloc: Global,
    /// Those of anchors, in the order of the firsts.
    pub anchored: Vec<KeptTree>,
    /// The last one that no anchor has.
    pub newest: Option<KeptTree>,
}

impl Trees {
    /// None yet.
    pub fn new(alloc: Global) -> Trees
        ensures { (commits : List (List ℕ)) → AreKept commits result }
    {
        Trees {
            alloc,
            anchored: Vec::new(alloc),
            newest: None,
        }
    }

    /// Keeps the tree over an anchor's commitments, from `first` on and up to `end`. Where memory runs out
    /// it is not kept.
    pub fn keep_anchored(&mut self, commitments: &[[u8; 44]], first: usize, end: usize)
        requires few { length commitments.now < 2 ^ 32 }
        requires begins { first ≤ end }
        requires within { end ≤ length commitments.now }
        requires kept { AreKept commitments.now self.old }
        ensures kept { AreKept commitments.now self.new }
    {
        if end - first < LEAST {
            return;
        }
        if let Ok(mut tree) = self.grown(commitments, first, end) {
            tree.close(self.alloc, commitments, end - first);
            let _ = self.anchored.push(tree);
        }
    }

    /// Keeps the tree over a tip's commitments, likewise.
    pub fn keep_newest(&mut self, commitments: &[[u8; 44]], first: usize, end: usize)
        requires few { length commitments.now < 2 ^ 32 }
        requires begins { first ≤ end }
        requires within { end ≤ length commitments.now }
        requires kept { AreKept commitments.now self.old }
        ensures kept { AreKept commitments.now self.new }
    {
        if end - first < LEAST {
            return;
        }
        if let Ok(tree) = self.grown(commitments, first, end) {
            self.newest = Some(tree);
        }
    }

    /// The tree that begins with this commitment, grown up to `end`, where memory allows. It is taken out
    /// of the others.
    fn grown(
        &mut self,
        commitments: &[[u8; 44]],
        first: usize,
        end: usize,
    ) -> Result<KeptTree, OutOfMemory>
        requires few { length commitments.now < 2 ^ 32 }
        requires begins { first ≤ end }
        requires within { end ≤ length commitments.now }
        requires kept { AreKept commitments.now self.old }
        ensures kept { AreKept commitments.now self.new }
        ensures tree { IfOk result (IsKept commitments.now) }
    {
        let mut tree = match self.take(first) {
            Some(tree) => tree,
            None => KeptTree::new(self.alloc, first)?,
        };
        tree.grow(commitments, end);
        Ok(tree)
    }

    /// Takes out the last anchor's tree, or that of no anchor, where it begins with this commitment.
    fn take(&mut self, first: usize) -> Option<KeptTree>
        ensures kept { (commits : List (List ℕ)) → AreKept commits self.old → AreKept commits self.new }
        ensures tree { (commits : List (List ℕ)) → AreKept commits self.old → IfSome result (IsKept commits) }
    {
        if begins_with(self.anchored.last(), first) {
            return self.anchored.pop();
        }
        if begins_with(self.newest.as_ref(), first) {
            return self.newest.take();
        }
        None
    }

    /// The tree that begins with this commitment and has as many.
    fn find(&self, first: usize, count: usize) -> Option<&KeptTree>
        ensures kept { (commits : List (List ℕ)) → AreKept commits self.now
            → IfSome result (λ tree. IsKept commits tree.now) }
        ensures first { IfSome result (λ tree. tree.now.first ≡ first) }
        ensures enough { IfSome result (λ tree. count ≤ length tree.now.tree.leaves) }
    {
        let place = self.anchored.partition_point(|tree| tree.first < first);
        if place < self.anchored.len() && self.anchored[place].has(first, count) {
            return Some(&self.anchored[place]);
        }
        match &self.newest {
            Some(tree) if tree.has(first, count) => Some(tree),
            _ => None,
        }
    }

    /// The root over `count` commitments from index `first` on. Where no tree is kept over them they are
    /// hashed.
    pub fn root_over(
        &self,
        commitments: &[[u8; 44]],
        first: usize,
        count: usize,
    ) -> Result<[u8; 32], OutOfMemory>
        requires some { 1 ≤ count }
        requires within { first + count ≤ length commitments.now }
        requires few { length commitments.now < 2 ^ 32 }
        requires kept { AreKept commitments.now self.now }
        ensures { IfOk result (λ made. made ≡ root (hashed (span first count commitments.now))) }
    {
        match self.find(first, count) {
            Some(tree) => tree.root_of_first(self.alloc, commitments, count),
            None => root_by_hashing(self.alloc, &commitments[first..first + count]),
        }
    }

    /// The root over the last `count` commitments, from index `first` on, likewise. Those that no tree has
    /// are hashed into the peaks: it takes no memory.
    pub fn root_to_end(
        &self,
        commitments: &[[u8; 44]],
        first: usize,
        count: usize,
        peaks: Peaks,
    ) -> [u8; 32]
        requires some { 1 ≤ count }
        requires last { first + count ≡ length commitments.now }
        requires few { length commitments.now < 2 ^ 32 }
        requires kept { AreKept commitments.now self.now }
        requires empty { peaks.leaves ≡ [] }
        requires room { length commitments.now ≤ peaks.spare }
        ensures { result ≡ root (hashed (span first count commitments.now)) }
    {
        match self.find(first, count) {
            Some(tree) => tree.tree.root().unwrap(),
            None => root_in(peaks, &commitments[first..first + count]),
        }
    }

    /// The way of the commitment of index `i` among `count` from index `first` on. Where no tree is kept over
    /// them it has a copy of them all.
    pub fn way_over(
        &self,
        commitments: &[[u8; 44]],
        first: usize,
        count: usize,
        i: usize,
    ) -> Result<Way, OutOfMemory>
        requires is_one { i < count }
        requires within { first + count ≤ length commitments.now }
        requires few { length commitments.now < 2 ^ 32 }
        requires kept { AreKept commitments.now self.now }
        ensures { IfOk result (λ way. way ≡ path (hashed (span first count commitments.now)) i) }
    {
        match self.find(first, count) {
            Some(tree) => tree.way_of_first(self.alloc, commitments, count, i),
            None => Way::of_all(self.alloc, &commitments[first..first + count], i),
        }
    }
}

/// The root of the tree over commitments, at least one, where all are hashed.
fn root_by_hashing(alloc: Global, commitments: &[[u8; 44]]) -> Result<[u8; 32], OutOfMemory>
    requires some { 1 ≤ length commitments.now }
    requires few { length commitments.now < 2 ^ 32 }
    ensures { IfOk result (λ made. made ≡ root (hashed commitments.now)) }
{
    Ok(root_in(room_for_all(alloc)?, commitments))
}

/// The same by peaks that have room for them. It takes no memory.
fn root_in(peaks: Peaks, commitments: &[[u8; 44]]) -> [u8; 32]
    requires some { 1 ≤ length commitments.now }
    requires empty { peaks.leaves ≡ [] }
    requires room { length commitments.now ≤ peaks.spare }
    ensures { result ≡ root (hashed commitments.now) }
{
    let mut peaks = peaks;
    for commitment in commitments {
        peaks.push(Sha256::digest(commitment.as_slice())).unwrap();
    }
    peaks.root().unwrap()
}

/// Peaks that take in all commitments that there may be without taking memory.
pub fn room_for_all(alloc: Global) -> Result<Peaks, OutOfMemory>
    ensures empty { IfOk result (λ peaks. peaks.leaves ≡ []) }
    ensures room { IfOk result (λ peaks. 2 ^ 32 ≤ peaks.spare) }
{
    let mut peaks = Peaks::new(alloc);
    peaks.reserve(MOST_COMMITMENTS)?;
    Ok(peaks)
}

/// Whether there is a tree that begins with this commitment.
fn begins_with(tree: Option<&KeptTree>, first: usize) -> bool {
    tree.is_some_and(|tree| tree.first == first)
}
