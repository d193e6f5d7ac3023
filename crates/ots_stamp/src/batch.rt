//! Files that are stamped together.
ghost use Rattle.std.specs.Prelude.{◌≡◌, ◌≤◌, ◌<◌, ◌+◌, ◌^◌, ◌⊎◌, ℕ, List, Some, length, map, take, slice_get};
ghost use Rattle.std.specs.Prelude.{slice_index_or, [], ◌∷◌, IfOk, OnErr};
ghost use Rattle.ots_asking.specs.Conversation.{Converse, ConverseUpTo};
ghost use Rattle.ots_merkle.specs.CalendarTree.{path, root};
ghost use Rattle.ots_stamp.specs.declared.target.Target.{Target};
ghost use Rattle.ots_stamp.specs.Stamping.{to_stamp};
ghost use Rattle.ots_stamp.specs.Stamped.{AreSoundBelow, Gathers, GathersForm, IsSoundBelow, IsStampOf, leaf};
ghost use Rattle.ots_stamp.specs.Stamped.{leaves};
ghost use Rattle.ots_stamp.specs.Ways.{IsDepth};
ghost use Rattle.ots_tree.specs.declared.detached.Detached.{Detached as Proof};
ghost use Rattle.ots_tree.specs.declared.token.Token.{Token};

use crate::target::Target;
use crate::ways::{Ways, leaf_of};
use ots_address::Address;
use ots_asking::Outcome;
use ots_base::OutOfMemory;
use ots_canon::canon;
use ots_ops::{Digest, HashOp};
use ots_outside::Dialer;
use ots_tree::{Detached, Tree, under};
use std::alloc::Global;
use std::marker::Model;

/// Files that are stamped together, under one root.
///
/// Contracts see the list of the files.
#[derive(Drop)]
pub struct Batch {
    targets: Vec<Target>,
    ways: Ways,
}

impl Model for Batch {
    ghost use Rattle.std.specs.Prelude.{List};
    ghost use Rattle.ots_stamp.specs.declared.target.Target.{Target};
    ghost use Rattle.ots_stamp.specs.Batch.{KeepsBatch};

    ghost Value = { List Target };

    ghost view = { λ b. b.targets.items };

    ghost invariant = { λ b. KeepsBatch b.targets.items b.ways };
}

impl Batch {
    /// These files, at least one and at most 1024, each with a nonce of its own. It takes one hash a
    /// file, and as many again for the tree over them.
    pub fn new(alloc: Global, targets: Vec<Target>) -> Result<Batch, OutOfMemory>
        requires least { 1 ≤ length targets.items }
        requires most { length targets.items ≤ 1024 }
        ensures { IfOk result (λ batch. batch ≡ targets.items) }
    {
        let leaves = leaves_of(alloc, &targets)?;
        let ways = Ways::new(alloc, leaves)?;
        Ok(Batch { targets, ways })
    }

    /// The root over the leaves of all files, which calendars are sent.
    pub fn root(&self) -> Digest
        ensures { result ≡ root (leaves self.now) }
    {
        self.ways.root()
    }

    /// How many operations stand before a calendar's answer on the longest way from a file to it.
    pub fn depth(&self) -> u32
        ensures depth { IsDepth (leaves self.now) result }
        ensures most { result ≤ 22 }
    {
        self.ways.depth()
    }

    /// Sends the root to each calendar in order, as [`stamp_with`](crate::stamp_with) does.
    pub fn ask<D: Dialer>(
        &self,
        alloc: Global,
        dialer: &mut D,
        calendars: &[Address],
    ) -> Result<Vec<Outcome>, OutOfMemory>
        ensures asked { IfOk result (λ outcomes. (depth : ℕ) × IsDepth (leaves self.now) depth
            × Converse D.told D.faults (map (to_stamp (root (leaves self.now)) depth) calendars.now) dialer.old
            dialer.new outcomes.items) }
        ensures broken_off { OnErr result ((depth : ℕ) × IsDepth (leaves self.now) depth
            × ConverseUpTo D.told D.faults (map (to_stamp (root (leaves self.now)) depth) calendars.now) dialer.old
            dialer.new) }
        ensures sound { IfOk result (λ outcomes. AreSoundBelow self.now outcomes.items) }
    {
        self.ways.ask(alloc, dialer, calendars)
    }

    /// The files.
    pub fn targets(&self) -> &[Target]
        ensures { result.now ≡ self.now }
    {
        &self.targets
    }

    /// Each of the files has a proof, whether or not there is memory to make it.
    pub fn have_proofs(&self, good: &Tree)
        requires sound { IsSoundBelow self.now good.now }
        ensures { (i : ℕ) (t : Target) (trees : List (List Token)) → slice_get self.now i ≡ Some t
            → Gathers trees good.now
            → (proof : Proof) × IsStampOf self.now i t trees proof }
    {
        let _ = good.tokens();
    }

    /// The proof of one of the files, where the calendars' good trees are gathered in one.
    pub fn proof(&self, alloc: Global, i: usize, good: &Tree) -> Result<Detached, OutOfMemory>
        requires index { i < length self.now }
        requires sound { IsSoundBelow self.now good.now }
        ensures { IfOk result (λ proof. (t : Target) (trees : List (List Token)) → slice_get self.now i ≡ Some t
            → Gathers trees good.now → IsStampOf self.now i t trees proof) }
    {
        let form = canon(alloc, good)?;
        self.proof_below(alloc, i, &form)
    }

    /// The proof of one of the files, where the good trees are gathered in one and that is in canonical form:
    /// it is copied below the file's operations. So the form is made once for all files.
    pub fn proof_below(&self, alloc: Global, i: usize, form: &Tree) -> Result<Detached, OutOfMemory>
        requires index { i < length self.now }
        requires sound { IsSoundBelow self.now form.now }
        ensures { IfOk result (λ proof. (t : Target) (trees : List (List Token)) → slice_get self.now i ≡ Some t
            → GathersForm trees form.now → IsStampOf self.now i t trees proof) }
    {
        let target = &self.targets[i];
        let ops = self.ways.way(alloc, i, &target.nonce)?;
        let tree = under(alloc, ops.items(), form.copy()?)?;
        Ok(Detached {
            hash: HashOp::Sha256,
            digest: target.digest,
            tree,
        })
    }
}

/// The leaves of files.
fn leaves_of(alloc: Global, targets: &[Target]) -> Result<Vec<[u8; 32]>, OutOfMemory>
    ensures { IfOk result (λ made. made.items ≡ leaves targets.now) }
{
    let mut leaves = Vec::with_capacity(alloc, targets.len())?;
    for target in targets {
        leaves.push(target_leaf(target))?;
    }
    Ok(leaves)
}

/// The leaf of a file: SHA-256 of its digest and then its nonce.
fn target_leaf(target: &Target) -> [u8; 32]
    ensures { result ≡ leaf target.now }
{
    leaf_of(target.digest.bytes(), &target.nonce)
}
