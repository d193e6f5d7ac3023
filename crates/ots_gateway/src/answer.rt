//! What calendars answer a round.
ghost use Rattle.std.specs.Prelude.{◌≡◌, ◌≤◌, length, IfOk};
ghost use Rattle.ots_base.specs.declared.limits.TheConstants.{MAX_REPLY_BODY};
ghost use Rattle.ots_gateway.specs.Answer.{IsAnswer, way_bytes};
ghost use Rattle.ots_gateway.specs.Round.{Asks, Given};
ghost use Rattle.ots_merkle.specs.Hashes.{AreHashes};

use crate::taking::take_trees;
use ots_address::Address;
use ots_asking::Outcome;
use ots_base::OutOfMemory;
use ots_outside::Dialer;
use ots_stamp::{Ways, gather_good};
use ots_tree::Tree;
use std::alloc::Global;

/// What the digests of a round are answered: each its way to the root, and below it this tree.
#[derive(Drop)]
pub(crate) struct Answer {
    /// The ways of the digests, in order.
    pub(crate) ways: Ways,
    /// The items of all trees that are taken.
    pub(crate) tree: Tree,
}

/// Asks the calendars for the root over these leaves, at most 1024 hashes, and takes those of their trees
/// that fit into a reply below the longest way. Where at least `min` are taken, 1 or more, their items
/// are answered as one tree. Beside it stands what came of asking each calendar; nobody is asked where
/// there is no leaf.
pub(crate) fn ask<T: Dialer>(
    alloc: Global,
    leaves: Vec<[u8; 32]>,
    calendars: &[Address],
    min: u32,
    dialer: &mut T,
) -> Result<(Option<Answer>, Vec<Outcome>), OutOfMemory>
    requires most { length leaves.items ≤ 1024 }
    requires hashes { AreHashes leaves.items }
    requires min { 1 ≤ min }
    ensures { IfOk result (λ made. (given : Given)
        × Asks T.told T.faults calendars.now min leaves.items dialer.old dialer.new made.1.items given
        × IsAnswer given made.0) }
{
    if leaves.is_empty() {
        return Ok((None, Vec::new(alloc)));
    }
    let ways = Ways::new(alloc, leaves)?;
    let mut outcomes = ways.ask(alloc, dialer, calendars)?;
    let taken = take_trees(outcomes.as_mut_slice(), way_bytes(ways.depth()));
    if taken < min as usize {
        return Ok((None, outcomes));
    }
    match gather_good(&outcomes)? {
        Some(tree) => Ok((Some(Answer { ways, tree }), outcomes)),
        None => unreachable!(),
    }
}

/// How many bytes the longest way has, where it has this many operations. A nonce is put after the
/// digest, 18 bytes, and that is hashed, 1 byte; each two operations of the path that follows put 32
/// bytes before or after, 34 bytes, and hash, 1 byte.
fn way_bytes(depth: u32) -> u64
    requires least { 2 ≤ depth }
    requires most { depth ≤ 66 }
    ensures bytes { result ≡ way_bytes depth }
    ensures most { result ≤ MAX_REPLY_BODY }
{
    19 + 35 * (u64::from(depth) - 2) / 2
}
