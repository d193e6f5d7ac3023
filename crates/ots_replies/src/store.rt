//! Where replies are kept.
ghost use Rattle.std.specs.Prelude.{◌≡◌, ◌<◌, ◌≤◌, ◌^◌, ◌++◌, ◌∷◌, [], length, slice_index_or, OnOk};
ghost use Rattle.ots_sheet.specs.Request.{request_parts};
ghost use Rattle.ots_sheet.specs.Reply.{Answer, IsAnswer, reply_parts};
ghost use Rattle.ots_replies.specs.inner.Kept.{Keeps};
ghost use Rattle.ots_replies.specs.inner.Shape.{Shows};

use crate::hexadecimal::push_hex;
use crate::shape::{Outcome, Shape};
use ots_base::OutOfMemory;
use ots_sheet::{Kind, Reply, Request};
use std::alloc::Global;
use std::marker::Model;

/// Where one request and its reply stand: its URL, its message and a body follow each other.
#[derive(Clone, Copy)]
pub(crate) struct Kept {
    pub(crate) start: usize,
    pub(crate) url: u16,
    pub(crate) message: u16,
    pub(crate) reply: KeptReply,
    pub(crate) kind: Kind,
}

/// What came of a request.
#[derive(Clone, Copy)]
pub(crate) enum KeptReply {
    /// A body of so many bytes.
    Body(u16),
    Status(u16),
    Nothing,
}

/// Requests and their replies, the bytes of all of them in one piece of memory.
///
/// Contracts see them as a list.
#[derive(Drop)]
pub(crate) struct Store {
    bytes: Vec<u8>,
    index: Vec<Kept>,
}

impl Model for Store {
    ghost use Rattle.std.specs.Prelude.{List, length, map};
    ghost use Rattle.std.specs.List.{AllByRecursion};
    ghost use Rattle.ots_sheet.specs.Reply.{Answer};
    ghost use Rattle.ots_replies.specs.inner.Kept.{IsWithin, answer_in};

    ghost Value = { List Answer };

    ghost view = { λ s. map (answer_in s.bytes.items) s.index.items };

    ghost invariant = { λ s. AllByRecursion (IsWithin (length s.bytes.items)) s.index.items };
}

impl Store {
    /// Nothing is kept.
    pub(crate) fn new(alloc: Global) -> Store
        ensures { result ≡ [] }
    {
        Store {
            bytes: Vec::new(alloc),
            index: Vec::new(alloc),
        }
    }

    /// How many there are.
    pub(crate) fn len(&self) -> usize
        ensures { result ≡ length self.now }
    {
        self.index.len()
    }

    /// Keeps what a line tells after the others.
    pub(crate) fn push(&mut self, shape: &Shape<'_>) -> Result<(), OutOfMemory>
        requires right { (a : Answer) × IsAnswer a × Shows shape.now a }
        requires short { length shape.now.url.now < 2 ^ 16 }
        ensures { OnOk result ((a : Answer) → IsAnswer a → Shows shape.now a → self.new ≡ self.old ++ a ∷ []) }
    {
        let start = self.bytes.len();
        let reply = push_shape(&mut self.bytes, shape)?;
        let kept = Kept {
            start,
            url: shape.url.len() as u16,
            message: (shape.message.len() / 2) as u16,
            reply,
            kind: shape.kind,
        };
        self.index.push(kept)?;
        Ok(())
    }

    /// The request at a place.
    pub(crate) fn request(&self, at: usize) -> Request<'_>
        requires { at < length self.now }
        ensures { (a : Answer) → request_parts result ≡ (slice_index_or self.now at a).request }
    {
        let Kept {
            start,
            url,
            message,
            kind,
            ..
        } = self.index[at];
        let middle = start + url as usize;
        Request {
            kind,
            url: &self.bytes[start..middle],
            message: &self.bytes[middle..middle + message as usize],
        }
    }

    /// The reply at a place.
    pub(crate) fn reply(&self, at: usize) -> Reply<'_>
        requires { at < length self.now }
        ensures { (a : Answer) → reply_parts result ≡ (slice_index_or self.now at a).reply }
    {
        let kept = self.index[at];
        match kept.reply {
            KeptReply::Body(count) => {
                let start = kept.start + kept.url as usize + kept.message as usize;
                Reply::Body(&self.bytes[start..start + count as usize])
            }
            KeptReply::Status(code) => Reply::Status(code),
            KeptReply::Nothing => Reply::Nothing,
        }
    }
}

/// Adds the bytes of what a line tells, and answers how its reply is kept.
fn push_shape(bytes: &mut Vec<u8>, shape: &Shape<'_>) -> Result<KeptReply, OutOfMemory>
    requires { (a : Answer) × IsAnswer a × Shows shape.now a }
    ensures longer { length bytes.old.items ≤ length bytes.new.items }
    ensures kept { Keeps bytes.old.items bytes.new.items shape.now result }
{
    bytes.extend_from_slice(shape.url)?;
    push_hex(bytes, shape.message)?;
    match shape.outcome {
        Outcome::Body(digits) => {
            push_hex(bytes, digits)?;
            Ok(KeptReply::Body((digits.len() / 2) as u16))
        }
        Outcome::Status(code) => Ok(KeptReply::Status(code)),
        Outcome::Nothing => Ok(KeptReply::Nothing),
    }
}
