//! The proofs that trees make of a draft or of another proof.
ghost use Rattle.std.specs.Prelude.{◌≡◌, ◌≤◌, ◌↔◌, length, IfOk, IsTrue};
ghost use Rattle.std.specs.List.{AllByRecursion};
ghost use Rattle.ots_archive_taken.specs.Taken.{IsTooBig};
ghost use Rattle.ots_archive_taken.specs.inner.Making.{DraftMakes, IfFits, ProofMakes};
ghost use Rattle.ots_draft.specs.Draft.{IsDraft};
ghost use Rattle.ots_pending.specs.Completed.{AreSoundFor};
ghost use Rattle.ots_pending.specs.Pairs.{ArePairs};
ghost use Rattle.ots_tree.specs.Sound.{IsSoundPre};

use ots_base::{MAX_PROOF_FILE, OutOfMemory};
use ots_detached::file_length;
use ots_draft::taken_draft;
use ots_ops::Ops;
use ots_pending::{Pairs, completed_within};
use ots_tree::{Detached, Tree, limits_of_detached};
use std::alloc::Global;

/// The proof that trees make of a draft by these operations, unless it is too big.
pub(crate) fn proof_of_draft(
    alloc: Global,
    proof: &Detached,
    ops: &Ops,
    trees: &[Tree],
) -> Result<Option<Detached>, OutOfMemory>
    requires draft { IsDraft proof.now ops.now }
    requires some { 1 ≤ length trees.now }
    requires sound { AllByRecursion (IsSoundPre 32 (length ops.now)) trees.now }
    ensures { IfOk result (DraftMakes proof.now ops.now trees.now) }
{
    match taken_draft(alloc, proof, ops, trees, MAX_PROOF_FILE as u32)? {
        Some(made) => Ok(fitting(made)),
        None => Ok(None),
    }
}

/// The proof that trees for its pairs make of a proof, unless it is too big.
pub(crate) fn completed_proof(
    alloc: Global,
    proof: &Detached,
    pairs: &Pairs,
    trees: &[Option<Tree>],
) -> Result<Option<Detached>, OutOfMemory>
    requires pairs { ArePairs proof.now pairs.now }
    requires one_each { length trees.now ≡ length pairs.now }
    requires sound { AreSoundFor pairs.now trees.now }
    ensures { IfOk result (ProofMakes proof.now pairs.now trees.now) }
{
    limits_of_detached(proof);
    match completed_within(alloc, proof, pairs, trees, MAX_PROOF_FILE as u32)? {
        Some(tree) => Ok(fitting(Detached {
            hash: proof.hash,
            digest: proof.digest,
            tree,
        })),
        None => Ok(None),
    }
}

/// The proof, unless it is too big for a proof file.
fn fitting(made: Detached) -> Option<Detached>
    ensures { IfFits made result }
{
    if is_too_big(&made) {
        return None;
    }
    Some(made)
}

/// Whether a proof has more bytes than a proof file may have.
fn is_too_big(proof: &Detached) -> bool
    ensures { IsTrue result ↔ IsTooBig proof.now }
{
    file_length(proof) > MAX_PROOF_FILE as u64
}
