//! What the replies of a sheet make of a proof.
ghost use Rattle.std.specs.Prelude.{◌≤◌, IfOk};
ghost use Rattle.ots_archive_taken.specs.Taken.{IsTakenBy, TakesDraft, TakesProof};
ghost use Rattle.ots_archive_taken.specs.inner.Telling.{IsStamped, IsUpgraded};
ghost use Rattle.ots_draft.specs.Draft.{IsDraft};

use crate::given::{trees_got, trees_posted};
use crate::making::{completed_proof, proof_of_draft};
use ots_base::OutOfMemory;
use ots_canon::equal;
use ots_draft::draft_operations;
use ots_ops::Ops;
use ots_pending::{has_bitcoin, pending_pairs};
use ots_replies::Replies;
use ots_tree::Detached;
use std::alloc::Global;

/// What the replies of a sheet make of a proof.
#[derive(Drop)]
pub enum Taken {
    /// The proof was a draft, and calendars timestamped its message.
    Stamped {
        /// The proof that their trees make of it.
        proof: Detached,
        /// Whether some path of that ends in Bitcoin.
        complete: bool,
    },
    /// Calendars answered to pending paths of the proof, which was no draft.
    Upgraded {
        /// The proof that their trees complete. It has paths that it had not.
        proof: Detached,
        /// Whether some path of that ends in Bitcoin.
        complete: bool,
    },
    /// No path came to the proof, which was no draft.
    Same {
        /// Whether some path of it ends in Bitcoin.
        complete: bool,
    },
    /// What calendars make of it has more than 4,194,304 bytes as a file; of a proof that was no draft also
    /// where no path came to it.
    TooBig,
    /// The proof was a draft, and fewer calendars timestamped its message than were wanted.
    TooFew {
        /// How many did.
        got: u32,
    },
}

/// What the replies of a sheet make of a proof.
///
/// A draft is posted to each of the calendars for which its paths wait. A reply is good where it has status
/// 200 and its whole body is a tree below the draft's message; with `least` good ones at least they make a
/// proof of it, as stamping does. Another proof asks for the message of each pair of its pending paths, and
/// what is good completes it, as upgrading does. A request that the sheet has not, another status or no
/// reply, and a body that is no tree, give nothing.
///
/// It takes memory for the good trees once, and for what `taken_draft` of `ots_draft` and
/// `completed_within` of `ots_pending` take where a proof is at most 4,194,304 bytes long.
pub fn taken_by(
    alloc: Global,
    proof: &Detached,
    replies: &Replies,
    least: u32,
) -> Result<Taken, OutOfMemory>
    requires { 1 ≤ least }
    ensures { IfOk result (IsTakenBy replies.now proof.now least) }
{
    match draft_operations(alloc, proof)? {
        Some(ops) => taken_of_draft(alloc, proof, &ops, replies, least),
        None => taken_of_proof(alloc, proof, replies),
    }
}

/// The same of a draft by these operations.
fn taken_of_draft(
    alloc: Global,
    proof: &Detached,
    ops: &Ops,
    replies: &Replies,
    least: u32,
) -> Result<Taken, OutOfMemory>
    requires draft { IsDraft proof.now ops.now }
    requires some { 1 ≤ least }
    ensures { IfOk result (TakesDraft replies.now proof.now ops.now least) }
{
    let pairs = pending_pairs(alloc, proof)?;
    let trees = trees_posted(alloc, replies, &pairs)?;
    if trees.len() < least as usize {
        return Ok(Taken::TooFew {
            got: trees.len() as u32,
        });
    }
    match proof_of_draft(alloc, proof, ops, &trees)? {
        Some(made) => Ok(stamped(made)),
        None => Ok(Taken::TooBig),
    }
}

/// The same of a proof that is no draft.
fn taken_of_proof(alloc: Global, proof: &Detached, replies: &Replies) -> Result<Taken, OutOfMemory>
    ensures { IfOk result (TakesProof replies.now proof.now) }
{
    let pairs = pending_pairs(alloc, proof)?;
    let trees = trees_got(alloc, replies, &pairs)?;
    match completed_proof(alloc, proof, &pairs, &trees)? {
        Some(made) => upgraded(alloc, proof, made),
        None => Ok(Taken::TooBig),
    }
}

/// A proof that was made of a draft.
fn stamped(proof: Detached) -> Taken
    ensures { IsStamped proof result }
{
    let complete = has_bitcoin(&proof.tree);
    Taken::Stamped { proof, complete }
}

/// A proof that was made of another, unless it has no path more.
fn upgraded(alloc: Global, old: &Detached, proof: Detached) -> Result<Taken, OutOfMemory>
    ensures { IfOk result (IsUpgraded old.now proof) }
{
    if equal(alloc, &old.tree, &proof.tree)? {
        let complete = has_bitcoin(&old.tree);
        return Ok(Taken::Same { complete });
    }
    let complete = has_bitcoin(&proof.tree);
    Ok(Taken::Upgraded { proof, complete })
}
