//! One tree over commitments from one index on.
ghost use Rattle.std.specs.Prelude.{◌≡◌, ◌+◌, ◌*◌, ◌/◌, ◌≤◌, ◌<◌, ◌^◌, ◌++◌, ◌∷◌, [], IfOk, length, take, drop};
ghost use Rattle.std.specs.Prelude.{is_ok, true, None, if◌then◌else◌};
ghost use Rattle.ots_anchor.specs.Path.{hashed};
ghost use Rattle.ots_merkle.specs.CalendarTree.{root, root_if_any, path};
ghost use Rattle.ots_kept_trees.specs.Kept.{IsKept, span};

use crate::Way;
use ots_anchor::hashed;
use ots_base::OutOfMemory;
use ots_growing_tree::{GrowingTree, RUN, root_of};
use sha2::{Digest, Sha256};
use std::alloc::Global;

/// The tree over the SHA-256 of commitments from one index on.
#[derive(Drop)]
pub struct KeptTree {
    /// The index of the first commitment.
    pub first: usize,
    /// Its leaves are the SHA-256 of the commitments.
    pub tree: GrowingTree,
    /// What closes the tree over as many as an anchor has.
    pub closing: Option<Closing>,
}

/// What closes the tree over the first commitments.
#[derive(Clone, Copy)]
pub struct Closing {
    /// How many these are.
    pub count: usize,
    /// The root over those of them after their last whole run, where there are any.
    pub root: Option<[u8; 32]>,
}

impl KeptTree {
    /// No commitment yet, and those that come begin with this index.
    pub(crate) fn new(alloc: Global, first: usize) -> Result<KeptTree, OutOfMemory>
        ensures first { IfOk result (λ kept. kept.first ≡ first) }
        ensures leaves { IfOk result (λ kept. kept.tree.leaves ≡ []) }
        ensures unclosed { IfOk result (λ kept. kept.closing ≡ None) }
    {
        Ok(KeptTree {
            first,
            tree: GrowingTree::new(alloc)?,
            closing: None,
        })
    }

    /// Takes in the commitments up to this index that it has not, as many of them as memory allows.
    pub(crate) fn grow(&mut self, commitments: &[[u8; 44]], end: usize)
        requires few { length commitments.now < 2 ^ 32 }
        requires within { end ≤ length commitments.now }
        requires kept { IsKept commitments.now self.old }
        ensures kept { IsKept commitments.now self.new }
    {
        let begin = self.first + self.tree.len();
        if begin >= end || self.tree.reserve(end - begin).is_err() {
            return;
        }
        self.closing = None;
        for place in begin..end {
            if self.push(&commitments[place]).is_err() {
                return;
            }
        }
    }

    /// Adds a commitment after the others. Where memory ran out they are as before.
    fn push(&mut self, commitment: &[u8; 44]) -> Result<(), OutOfMemory>
        requires { length self.old.tree.leaves + 1 < 2 ^ 32 }
        ensures first { self.new.first ≡ self.old.first }
        ensures closing { self.new.closing ≡ self.old.closing }
        ensures leaves { self.new.tree.leaves ≡ (if is_ok result
            then self.old.tree.leaves ++ hashed (commitment.now ∷ []) else self.old.tree.leaves) }
    {
        self.tree.push(Sha256::digest(commitment.as_slice()))
    }

    /// The commitments of the run of an index among the first `count` of them.
    fn run_at<'a>(&self, commitments: &'a [[u8; 44]], count: usize, i: usize) -> &'a [[u8; 44]]
        requires kept { IsKept commitments.now self.now }
        requires few { length commitments.now < 2 ^ 32 }
        requires enough { count ≤ length self.now.tree.leaves }
        requires within { i ≤ count }
        ensures { hashed result.now ≡ take RUN (drop (RUN * (i / RUN)) (take count self.now.tree.leaves)) }
    {
        let begin = RUN * (i / RUN);
        let end = (begin + RUN).min(count);
        &commitments[self.first + begin..self.first + end]
    }

    /// Their leaves.
    fn run_of(
        &self,
        alloc: Global,
        commitments: &[[u8; 44]],
        count: usize,
        i: usize,
    ) -> Result<Vec<[u8; 32]>, OutOfMemory>
        requires kept { IsKept commitments.now self.now }
        requires few { length commitments.now < 2 ^ 32 }
        requires enough { count ≤ length self.now.tree.leaves }
        requires within { i ≤ count }
        ensures { IfOk result (λ run. run.items ≡ take RUN (drop (RUN * (i / RUN)) (take count self.now.tree.leaves))) }
    {
        hashed(alloc, self.run_at(commitments, count, i))
    }

    /// The root over those of the first `count` commitments after their last whole run, where there are any.
    fn closing_of(
        &self,
        alloc: Global,
        commitments: &[[u8; 44]],
        count: usize,
    ) -> Result<Option<[u8; 32]>, OutOfMemory>
        requires kept { IsKept commitments.now self.now }
        requires few { length commitments.now < 2 ^ 32 }
        requires enough { count ≤ length self.now.tree.leaves }
        ensures { IfOk result (λ root. root
            ≡ root_if_any (drop (RUN * (count / RUN)) (take count self.now.tree.leaves))) }
    {
        match &self.closing {
            Some(closing) if closing.count == count => Ok(closing.root),
            _ => Ok(root_of(&self.run_of(alloc, commitments, count, count)?)),
        }
    }

    /// Keeps what closes the tree over the first `count` commitments, if it has so many and memory allows.
    pub(crate) fn close(&mut self, alloc: Global, commitments: &[[u8; 44]], count: usize)
        requires kept { IsKept commitments.now self.old }
        requires few { length commitments.now < 2 ^ 32 }
        ensures kept { IsKept commitments.now self.new }
    {
        if count <= self.tree.len()
            && let Ok(root) = self.closing_of(alloc, commitments, count)
        {
            self.closing = Some(Closing { count, root });
        }
    }

    /// The root over the first `count` commitments, at least one.
    pub(crate) fn root_of_first(
        &self,
        alloc: Global,
        commitments: &[[u8; 44]],
        count: usize,
    ) -> Result<[u8; 32], OutOfMemory>
        requires kept { IsKept commitments.now self.now }
        requires few { length commitments.now < 2 ^ 32 }
        requires enough { count ≤ length self.now.tree.leaves }
        requires some { 1 ≤ count }
        ensures { IfOk result (λ made. made ≡ root (hashed (span self.now.first count commitments.now))) }
    {
        let cut = self.run_of(alloc, commitments, count, count)?;
        Ok(self.tree.root_of_first(count, &cut).unwrap())
    }

    /// The way of the commitment of index `i` among the first `count`.
    pub(crate) fn way_of_first(
        &self,
        alloc: Global,
        commitments: &[[u8; 44]],
        count: usize,
        i: usize,
    ) -> Result<Way, OutOfMemory>
        requires kept { IsKept commitments.now self.now }
        requires few { length commitments.now < 2 ^ 32 }
        requires enough { count ≤ length self.now.tree.leaves }
        requires within { i < count }
        ensures { IfOk result (λ way. way ≡ path (hashed (span self.now.first count commitments.now)) i) }
    {
        let closing = self.closing_of(alloc, commitments, count)?;
        let above = self.tree.path_above(alloc, count, i, closing)?;
        Way::through(alloc, self.run_at(commitments, count, i), i % RUN, above)
    }

    /// Whether it begins with this commitment and has as many.
    pub(crate) fn has(&self, first: usize, count: usize) -> bool
        ensures first { result ≡ true → self.now.first ≡ first }
        ensures enough { result ≡ true → count ≤ length self.now.tree.leaves }
    {
        self.first == first && count <= self.tree.len()
    }
}
