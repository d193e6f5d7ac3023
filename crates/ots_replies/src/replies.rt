//! The replies of a sheet.
ghost use Rattle.std.specs.Prelude.{◌≡◌, ◌<◌, ◌==◌, length, slice_index_or, IfNone, IfSome};
ghost use Rattle.ots_sheet.specs.Request.{request_parts};
ghost use Rattle.ots_sheet.specs.Reply.{Answer, ReplyParts, reply_parts};
ghost use Rattle.ots_sheet.specs.Sheet.{AreAnswers};
ghost use Rattle.ots_replies.specs.Replies.{HasReply};

use crate::store::Store;
use ots_sheet::{Reply, Request};
use std::cmp::Ordering;
use std::marker::Model;

/// The replies of a sheet, in the order of their requests. They take two bytes of memory for each
/// byte of URLs, messages and bodies at most, and 48 for each reply.
///
/// Contracts see them as a list.
#[derive(Drop)]
pub struct Replies {
    pub(crate) store: Store,
}

impl Model for Replies {
    ghost use Rattle.std.specs.Prelude.{List};
    ghost use Rattle.ots_sheet.specs.Reply.{Answer};
    ghost use Rattle.ots_sheet.specs.Sheet.{AreAnswers};

    ghost Value = { List Answer };

    ghost view = { λ r. r.store };

    ghost invariant = { λ r. AreAnswers r.store };
}

impl Replies {
    /// How many there are.
    pub fn len(&self) -> usize
        ensures count { result ≡ length self.now }
        ensures answers { AreAnswers self.now }
    {
        self.store.len()
    }

    /// Whether there is none.
    pub fn is_empty(&self) -> bool
        ensures { result ≡ (length self.now == 0) }
    {
        self.store.len() == 0
    }

    /// The request at a place, counted from 0.
    pub fn request(&self, at: usize) -> Request<'_>
        requires { at < length self.now }
        ensures { (a : Answer) → request_parts result ≡ (slice_index_or self.now at a).request }
    {
        self.store.request(at)
    }

    /// The reply at a place, counted from 0.
    pub fn reply(&self, at: usize) -> Reply<'_>
        requires { at < length self.now }
        ensures { (a : Answer) → reply_parts result ≡ (slice_index_or self.now at a).reply }
    {
        self.store.reply(at)
    }

    /// The reply to a request; `None` where the sheet has no such request. It looks at some twenty
    /// requests at most.
    pub fn find(&self, request: &Request<'_>) -> Option<Reply<'_>>
        ensures some { IfSome result (λ reply. HasReply self.now (request_parts request.now) (reply_parts reply)) }
        ensures none { IfNone result ((reply : ReplyParts) → HasReply self.now (request_parts request.now) reply → ⊥) }
    {
        let mut low = 0;
        let mut high = self.store.len();
        while low < high {
            let middle = low + (high - low) / 2;
            match self.store.request(middle).order(request) {
                Ordering::Less => low = middle + 1,
                Ordering::Greater => high = middle,
                Ordering::Equal => return Some(self.store.reply(middle)),
            }
        }
        None
    }
}
