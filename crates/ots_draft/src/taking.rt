//! What calendars' answers make of a draft.
ghost use Rattle.std.specs.Prelude.{◌≡◌, ◌≤◌, IfOk, length};
ghost use Rattle.std.specs.List.{AllByRecursion};
ghost use Rattle.ots_draft.specs.Draft.{IsDraft, IsTakenWithin};
ghost use Rattle.ots_tree.specs.Sound.{IsSoundPre};

use crate::gathering::form_within;
use ots_base::OutOfMemory;
use ots_ops::Ops;
use ots_tree::{Detached, Tree, spelled_length, under};
use std::alloc::Global;

/// The proof that calendars' trees make of a draft, whose operations these are: each path of each tree,
/// after the operations, in canonical form. The draft's own paths wait no more, and are gone. `None`
/// exactly where its tree is spelled in more than `most` bytes.
///
/// There is at least one tree, and each is sound for a message of 32 bytes below the operations, as it is
/// read where a reply to the draft's message is.
pub fn taken_draft(
    alloc: Global,
    proof: &Detached,
    ops: &Ops,
    trees: &[Tree],
    most: u32,
) -> Result<Option<Detached>, OutOfMemory>
    requires draft { IsDraft proof.now ops.now }
    requires some { 1 ≤ length trees.now }
    requires sound { AllByRecursion (IsSoundPre 32 (length ops.now)) trees.now }
    ensures { IfOk result (IsTakenWithin proof.now ops.now trees.now most) }
{
    let Some(form) = form_within(alloc, trees, most)? else {
        return Ok(None);
    };
    let tree = under(alloc, ops.items(), form)?;
    if spelled_length(&tree) > most as u64 {
        return Ok(None);
    }
    Ok(Some(Detached {
        hash: proof.hash,
        digest: proof.digest,
        tree,
    }))
}
