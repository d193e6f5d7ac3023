//! What came of asking a calendar.
ghost use Rattle.std.specs.Prelude.{◌≡◌, ◌≢◌, ◌≤◌, ℕ, List, IfOk};
ghost use Rattle.ots_asking.specs.Outcome.{IsOutcomeOf, IsOutcomeOfBody, IsSoundOutcome, IsUnreachableAs};
ghost use Rattle.ots_base.specs.declared.limits.TheConstants.{MAX_MESSAGE, MAX_OPERATIONS};
ghost use Rattle.ots_http.specs.ReplyTable.{IsReplyAnswer};

use ots_base::OutOfMemory;
use ots_http::{HttpReply, ReplyError};
use ots_reader::{Fault, ReadError, Reason, read_tree};
use ots_tree::{Shape, Tree};
use std::alloc::Global;

/// What came of asking a calendar.
#[derive(Debug, Drop)]
pub enum Outcome {
    /// It answered this tree.
    Tree(Tree),
    /// The conversation failed, and the dialer has counted the fault.
    Unreachable,
    /// It answered with another status than 200.
    Status(u16),
    /// The body of its reply has more than 10,000 bytes.
    TooLong,
    /// What it answered is no HTTP reply.
    BadHttp,
    /// The body of its reply is no tree: where and why.
    BadReply(Fault),
}

/// The outcome of a conversation, by what was read of its reply.
pub fn outcome_of(
    alloc: Global,
    read: Result<HttpReply, ReplyError>,
    shape: Shape,
) -> Result<Outcome, OutOfMemory>
    requires least { 1 ≤ shape.length }
    requires greatest { shape.length ≤ MAX_MESSAGE }
    requires depth { shape.depth ≤ MAX_OPERATIONS }
    ensures outcome { (reply : List ℕ) → IsReplyAnswer reply read
        → IfOk result (IsOutcomeOf shape.length shape.depth reply) }
    ensures unreachable { IfOk result (IsUnreachableAs read) }
    ensures memory { IfOk result (λ outcome. read ≢ Err ReplyError.OutOfMemory) }
    ensures sound { IfOk result (IsSoundOutcome shape.length shape.depth) }
{
    match read {
        Ok(HttpReply::Good(body)) => outcome_of_body(alloc, body.items(), shape),
        Ok(HttpReply::Status(code)) => Ok(Outcome::Status(code)),
        Err(ReplyError::TooLong) => Ok(Outcome::TooLong),
        Err(ReplyError::BadHttp) => Ok(Outcome::BadHttp),
        Err(ReplyError::LinkFault) => Ok(Outcome::Unreachable),
        Err(ReplyError::OutOfMemory) => Err(OutOfMemory),
    }
}

/// The outcome of a good reply with this body, in whatever way the body came. It is `Tree` where the whole
/// body is a tree that may stand below a message and operations of this shape, a message of 1 to 4096
/// bytes and at most 255 operations. Else it is `BadReply` with the body's fault, whose place counts bytes
/// from the body's start; where bytes follow a tree, that is `TrailingBytes` at the first of them. No other
/// outcome comes.
///
/// It reads the body once. `OutOfMemory` comes where there is no memory of `alloc` for the tree.
pub fn outcome_of_body(alloc: Global, body: &[u8], shape: Shape) -> Result<Outcome, OutOfMemory>
    requires least { 1 ≤ shape.length }
    requires greatest { shape.length ≤ MAX_MESSAGE }
    requires depth { shape.depth ≤ MAX_OPERATIONS }
    ensures outcome { IfOk result (IsOutcomeOfBody shape.length shape.depth body.now) }
    ensures sound { IfOk result (IsSoundOutcome shape.length shape.depth) }
{
    match read_tree(alloc, body, shape) {
        Ok((tree, used)) => {
            if used < body.len() {
                return Ok(Outcome::BadReply(Fault {
                    place: used as u64,
                    reason: Reason::TrailingBytes,
                }));
            }
            Ok(Outcome::Tree(tree))
        }
        Err(ReadError::Fault(fault)) => Ok(Outcome::BadReply(fault)),
        Err(ReadError::OutOfMemory) => Err(OutOfMemory),
    }
}
