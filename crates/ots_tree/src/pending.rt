//! The pending paths of a proof, with the messages that calendars are asked for.
ghost use Rattle.std.specs.Prelude.{◌≡◌, ◌+◌, ◌^◌, ◌<◌, ◌++◌, IfOk, OnOk};
ghost use Rattle.ots_tree.specs.Kept.{IsKept, beside};
ghost use Rattle.ots_tree.specs.PendingWalk.{added, ended, walked};
ghost use Rattle.ots_tree.specs.Pending.{ArePending};

use crate::detached::Detached;
use crate::path_messages::PathMessages;
use crate::token::Token;
use ots_attest::{Attestation, Uri};
use ots_base::OutOfMemory;
use ots_ops::Message;
use std::alloc::Global;

/// A path that ends in a pending attestation.
#[derive(Drop)]
pub struct PendingAt {
    /// The number of the path among all paths of the tree in preorder, from 0.
    pub path: u64,
    /// The number of its operations, at most 255.
    pub depth: u32,
    /// The URI at which the calendar is to be asked.
    pub uri: Uri,
    /// What its operations make of the digest, for which the calendar is to be asked.
    pub message: Message,
}

/// The paths of the proof's tree that end in a pending attestation, in preorder.
///
/// Each operation of the tree is applied once, and a message is copied into the answer alone. The
/// answer lies in memory of `alloc`: a URI of at most 1000 bytes and a message of at most 4096 for
/// each pending path, so that it may be hundreds of times as large as the proof. While it walks it
/// keeps one message for each node on one path, at most 256, and the result of one operation more:
/// about 1 MiB, however many forks there are.
pub fn pending_messages(alloc: Global, proof: &Detached) -> Result<Vec<PendingAt>, OutOfMemory>
    ensures { IfOk result (λ found. ArePending proof.now found.items) }
{
    let digest = Message::new(alloc, proof.digest.bytes())?;
    let messages = PathMessages::begin(alloc, digest)?;
    pending_of(alloc, proof.tree.tokens(), proof.tree.depths(), messages)
}

/// The pending paths of the tree with these tokens, from the message of the root.
fn pending_of(
    alloc: Global,
    tokens: &[Token],
    depths: &[u32],
    mut messages: PathMessages,
) -> Result<Vec<PendingAt>, OutOfMemory>
    requires { IsKept tokens.now depths.now }
    ensures { IfOk result (λ found. found.items ≡ walked 0 messages (beside tokens.now depths.now)) }
{
    let mut found = Vec::new(alloc);
    let mut path = 0;
    for (at, token) in tokens.iter().enumerate() {
        let depth = depths[at];
        note(alloc, token, depth, path, &messages, &mut found)?;
        path = paths_after(token, path);
        messages.follow(token, depth as usize)?;
    }
    Ok(found)
}

/// Adds the path that ends in the token, where this is a pending attestation.
fn note(
    alloc: Global,
    token: &Token,
    depth: u32,
    path: u64,
    messages: &PathMessages,
    found: &mut Vec<PendingAt>,
) -> Result<(), OutOfMemory>
    ensures { OnOk result (found.new.items ≡ found.old.items ++ added token.now depth path messages.now) }
{
    let Token::Attestation(Attestation::Pending(uri)) = token else {
        return Ok(());
    };
    let Some(message) = messages.at(depth as usize) else {
        return Ok(());
    };
    found.push(PendingAt {
        path,
        depth,
        uri: uri.copy()?,
        message: Message::new(alloc, message.bytes())?,
    })?;
    Ok(())
}

/// How many paths have ended after the token.
fn paths_after(token: &Token, path: u64) -> u64
    requires { path + 1 < 2 ^ 64 }
    ensures { result ≡ ended token.now path }
{
    match token {
        Token::Attestation(_) => path + 1,
        _ => path,
    }
}
