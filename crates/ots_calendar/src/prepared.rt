//! What a calendar answers of a commitment, before the commitments beside it are hashed.
ghost use Rattle.std.specs.Prelude.{◌≡◌, ◌+◌, ◌≤◌, IfOk, length};
ghost use Rattle.ots_anchor.specs.Path.{complete_way};
ghost use Rattle.ots_attest.specs.declared.attestation.Attestation.TheVariants.{Bitcoin};
ghost use Rattle.ots_base.specs.declared.limits.TheConstants.{MAX_MESSAGE};
ghost use Rattle.ots_tree.specs.Made.{lone};
ghost use Rattle.ots_tree.specs.Wire.{pre};
ghost use Rattle.ots_calendar.specs.Prepared.{tree_in};
ghost use Rattle.ots_calendar.specs.declared.answer.Answer.TheVariants.{Complete as CompleteAnswer};
ghost use Rattle.ots_calendar.specs.declared.answer.Answer.TheVariants.{Pending as PendingAnswer};
ghost use Rattle.ots_calendar.specs.declared.answer.Answer.TheVariants.{Unknown as UnknownAnswer};

use crate::Answer;
use ots_anchor::complete_way;
use ots_attest::Attestation;
use ots_base::OutOfMemory;
use ots_kept_trees::Way;
use ots_merkle::Branch;
use ots_outside::Bytes;
use ots_store::Anchor;
use ots_tree::{Tree, single};
use std::alloc::Global;
use std::marker::Model;

/// What a calendar answers of a commitment, before the commitments beside it are hashed. It has copies of
/// all that it needs, so that the answer can be made when the calendar's book is free.
///
/// Contracts see the answer.
#[derive(Drop)]
pub struct Prepared {
    alloc: Global,
    found: Found,
}

/// What was found of a commitment.
#[derive(Drop)]
pub(crate) enum Found {
    /// An anchor covers it.
    Covered(Covered),
    /// It is stored, and no anchor covers it yet.
    Pending,
    /// It is not stored.
    Unknown,
}

/// How a commitment leads to the Merkle root of the block of an anchor.
#[derive(Drop)]
pub(crate) struct Covered {
    /// From its SHA-256 to the root of the anchor's tip.
    pub(crate) way: Way,
    /// What stands before that root in the transaction.
    pub(crate) prefix: Bytes,
    /// What stands after it.
    pub(crate) suffix: Bytes,
    /// From the transaction to the block's root.
    pub(crate) branch: Branch,
    /// The height of the block.
    pub(crate) height: u64,
}

impl Model for Prepared {
    ghost use Rattle.ots_calendar.specs.Prepared.{answer_in, IsMessage};
    ghost use Rattle.ots_calendar.specs.declared.answer.Answer.{Answer};

    ghost Value = { Answer };

    ghost view = { λ prepared. answer_in prepared.found };

    ghost invariant = { λ prepared. IsMessage prepared.found };
}

impl Prepared {
    /// That a commitment is not stored.
    pub(crate) fn unknown(alloc: Global) -> Prepared
        ensures { result ≡ UnknownAnswer }
    {
        Prepared {
            alloc,
            found: Found::Unknown,
        }
    }

    /// That no anchor covers it.
    pub(crate) fn pending(alloc: Global) -> Prepared
        ensures { result ≡ PendingAnswer }
    {
        Prepared {
            alloc,
            found: Found::Pending,
        }
    }

    /// That an anchor covers it, to whose tip it leads by a way. What the anchor has is copied.
    pub(crate) fn covered(alloc: Global, way: Way, anchor: &Anchor) -> Result<Prepared, OutOfMemory>
        requires short { length anchor.now.prefix + 32 + length anchor.now.suffix ≤ MAX_MESSAGE }
        ensures { IfOk result (λ prepared. prepared ≡ CompleteAnswer
            (pre (lone (complete_way way anchor.now.prefix anchor.now.suffix anchor.now.branch)
            (Bitcoin anchor.now.height)))) }
    {
        let covered = Covered {
            way,
            prefix: anchor.prefix.copy()?,
            suffix: anchor.suffix.copy()?,
            branch: anchor.branch.copy()?,
            height: anchor.height,
        };
        Ok(Prepared {
            alloc,
            found: Found::Covered(covered),
        })
    }

    /// The answer. Where it is a tree, the commitments of one run are hashed, 16 at most, or all that an anchor
    /// covers where no tree was kept over them.
    pub fn answer(&self) -> Result<Answer, OutOfMemory>
        ensures { IfOk result (λ answer. answer ≡ self.now) }
    {
        match &self.found {
            Found::Covered(covered) => Ok(Answer::Complete(covered.tree(self.alloc)?)),
            Found::Pending => Ok(Answer::Pending),
            Found::Unknown => Ok(Answer::Unknown),
        }
    }
}

impl Covered {
    /// The tree of the one path from the commitment to the Merkle root of the block.
    fn tree(&self, alloc: Global) -> Result<Tree, OutOfMemory>
        requires short { length self.now.prefix + 32 + length self.now.suffix ≤ MAX_MESSAGE }
        ensures { IfOk result (λ tree. tree ≡ tree_in self.now) }
    {
        let way = self.way.ops(alloc)?;
        let ops = complete_way(
            alloc,
            way.items(),
            self.prefix.items(),
            self.suffix.items(),
            &self.branch,
        )?;
        single(alloc, ops.items(), Attestation::Bitcoin(self.height))
    }
}
