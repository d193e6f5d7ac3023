//! What came of a request.
ghost use Rattle.std.specs.Prelude.{◌≤◌, IfOk};
ghost use Rattle.ots_archive_counts.specs.Counts.{IsCameOf};
ghost use Rattle.ots_base.specs.declared.limits.TheConstants.{MAX_MESSAGE};
ghost use Rattle.ots_sheet.specs.Reply.{reply_parts};

use ots_asking::{Outcome, outcome_of_body};
use ots_base::OutOfMemory;
use ots_sheet::Reply;
use ots_tree::Shape;
use std::alloc::Global;

/// What came of a request.
#[derive(Clone, Copy)]
pub enum Came {
    /// Status 200 with a body that is a timestamp: a tree below the message, which is all of the body.
    Timestamp,
    /// Another status, or no whole reply.
    Refused,
    /// Status 200 with a body that is no timestamp.
    BadBody,
}

/// What came of a request for a message of so many bytes. A tree is read and let go.
pub(crate) fn came_of(alloc: Global, length: u32, reply: Reply<'_>) -> Result<Came, OutOfMemory>
    requires least { 1 ≤ length }
    requires greatest { length ≤ MAX_MESSAGE }
    ensures { IfOk result (IsCameOf length (reply_parts reply.entry)) }
{
    let Reply::Body(body) = reply else {
        return Ok(Came::Refused);
    };
    match outcome_of_body(alloc, body, Shape { length, depth: 0 })? {
        Outcome::Tree(_) => Ok(Came::Timestamp),
        _ => Ok(Came::BadBody),
    }
}
