//! Replies of a calendar.
ghost use Rattle.std.specs.Prelude.{◌≡◌, ◌+◌, ℕ, List, ◌≤◌, ◌++◌, length, take, drop, IsErrOf};
ghost use Rattle.ots_base.specs.Cause.{HasCauseWhere};
ghost use Rattle.ots_base.specs.Told.{IfTold};
ghost use Rattle.ots_http.specs.Given.{GivesAtMost};
ghost use Rattle.ots_http.specs.ReplyTable.{IsReplyAnswer};
ghost use Rattle.ots_http.specs.Fields.{StatesAtMost};
ghost use Rattle.ots_http.specs.ReplyBodyRead.{IsBodyAnswer};
ghost use Rattle.ots_http.specs.declared.reply.ReplyError.TheVariants.{LinkFault, OutOfMemory};

use crate::fields::{StatedLength, body_length};
use crate::heads::{HeadRead, read_head};
use crate::limits::{MAX_FIELDS, MAX_HEAD};
use crate::reading::read_on;
use httparse::spans::{EMPTY_HEADER_SPAN, ResponseSpans};
use ots_base::MAX_REPLY_BODY;
use ots_outside::{Bytes, Failed, Link};
use std::alloc::{AllocError, Global};

/// A reply.
#[derive(Debug, Drop)]
pub enum HttpReply {
    /// The body of a reply with the status 200: at most `MAX_REPLY_BODY` bytes.
    Good(Bytes),
    /// The status of any other reply, whose body is not read.
    Status(u16),
}

/// Why no reply was read.
#[derive(Clone, Copy, Debug, PartialEq, Eq)]
pub enum ReplyError {
    /// The body has more than `MAX_REPLY_BODY` bytes.
    TooLong,
    /// The bytes are no reply.
    BadHttp,
    /// A read failed, and the link has counted the fault.
    LinkFault,
    /// Memory ran out.
    OutOfMemory,
}

impl From<Failed> for ReplyError {
    ghost from_gives = { λ _ e. e ≡ LinkFault };

    fn from(_: Failed) -> Self {
        ReplyError::LinkFault
    }
}

impl From<AllocError> for ReplyError {
    ghost from_gives = { λ _ e. e ≡ OutOfMemory };

    fn from(_: AllocError) -> Self {
        ReplyError::OutOfMemory
    }
}

/// The reply that a link's input is, by the client's table of this project's HTTP profile, however
/// the reads are cut.
///
/// It reads at most `MAX_HEAD` bytes for the head and `MAX_REPLY_BODY + 1` for the body, whose last
/// shows that the body is too long. `LinkFault` comes only where the link's count of faults rose.
pub fn read_reply<L: Link>(alloc: Global, link: &mut L) -> Result<HttpReply, ReplyError>
    ensures answer { IfTold (L.told link.old) (λ told. IsReplyAnswer told.left result) }
    ensures came { GivesAtMost (MAX_HEAD + (MAX_REPLY_BODY + 1)) (L.told link.old) (L.told link.new) }
    ensures cause { HasCauseWhere (IsErrOf result ReplyError.LinkFault) (L.faults link.old) (L.faults link.new) }
    ensures same { L.same link.old link.new }
{
    let mut buffer = [0; MAX_HEAD + MAX_REPLY_BODY + 1];
    let mut fields = [EMPTY_HEADER_SPAN; MAX_FIELDS];
    match read_head::<ResponseSpans, L>(link, &mut buffer, &mut fields)? {
        HeadRead::NoHead | HeadRead::Ended => Err(ReplyError::BadHttp),
        HeadRead::Head(head, filled) => {
            if head.code != 200 {
                return Ok(HttpReply::Status(head.code));
            }
            let stated = body_length(&buffer[..filled], &fields[..head.headers], MAX_REPLY_BODY);
            read_body(alloc, link, &mut buffer, filled, head.len, stated)
        }
    }
}

/// The body that stands at `start`, of which bytes up to `filled` have come.
fn read_body<L: Link>(
    alloc: Global,
    link: &mut L,
    buffer: &mut [u8],
    filled: usize,
    start: usize,
    stated: StatedLength,
) -> Result<HttpReply, ReplyError>
    requires room { length buffer.old ≡ MAX_HEAD + MAX_REPLY_BODY + 1 }
    requires start { start ≤ filled }
    requires filled { filled ≤ MAX_HEAD }
    requires stated { StatesAtMost MAX_REPLY_BODY stated }
    ensures answer { IfTold (L.told link.old) (λ told. IsBodyAnswer (drop start (take filled buffer.old) ++ told.left)
        stated result) }
    ensures came { GivesAtMost (MAX_REPLY_BODY + 1) (L.told link.old) (L.told link.new) }
    ensures cause { HasCauseWhere (IsErrOf result ReplyError.LinkFault) (L.faults link.old) (L.faults link.new) }
    ensures same { L.same link.old link.new }
{
    match stated {
        StatedLength::Malformed => Err(ReplyError::BadHttp),
        StatedLength::TooGreat => Err(ReplyError::TooLong),
        StatedLength::Absent => {
            let at = read_on(link, buffer, filled, start + (MAX_REPLY_BODY + 1))?;
            body_up_to_limit(alloc, &buffer[start..at])
        }
        StatedLength::Length(size) => {
            let at = read_on(link, buffer, filled, start + size)?;
            body_of_size(alloc, &buffer[start..at], size)
        }
    }
}

/// The body, of which these are the first `MAX_REPLY_BODY + 1` bytes, or all.
fn body_up_to_limit(alloc: Global, bytes: &[u8]) -> Result<HttpReply, ReplyError>
    ensures body { (body : List ℕ) → bytes.now ≡ take (MAX_REPLY_BODY + 1) body
        → IsBodyAnswer body StatedLength.Absent result }
    ensures no_fault { ¬ (IsErrOf result ReplyError.LinkFault) }
{
    if bytes.len() > MAX_REPLY_BODY {
        return Err(ReplyError::TooLong);
    }
    Ok(HttpReply::Good(Bytes::from_vec(Vec::from_slice(alloc, bytes)?)))
}

/// The body of this size, of which these are the first bytes, or all where the input ended.
fn body_of_size(alloc: Global, bytes: &[u8], size: usize) -> Result<HttpReply, ReplyError>
    ensures body { (body : List ℕ) → bytes.now ≡ take size body → IsBodyAnswer body (StatedLength.Length size) result }
    ensures no_fault { ¬ (IsErrOf result ReplyError.LinkFault) }
{
    if bytes.len() < size {
        return Err(ReplyError::BadHttp);
    }
    Ok(HttpReply::Good(Bytes::from_vec(Vec::from_slice(alloc, bytes)?)))
}
