//! What a calendar is asked for.
ghost use Rattle.std.specs.Prelude.{◌≡◌};
ghost use Rattle.ots_sheet.specs.Request.{kind_word, request_parts};
ghost use Rattle.ots_sheet.specs.Order.{alike_order, request_order};

use std::cmp::Ordering;

/// How a calendar is asked.
#[derive(Clone, Copy, Debug, PartialEq, Eq)]
pub enum Kind {
    /// For what it has under a commitment.
    Get,
    /// To stamp a digest.
    Post,
}

impl Kind {
    /// The word of a line: `get` or `post`.
    pub fn word(self) -> &'static [u8]
        ensures { result.now ≡ kind_word self }
    {
        match self {
            Kind::Get => b"get",
            Kind::Post => b"post",
        }
    }
}

/// A request to a calendar.
#[derive(Clone, Copy)]
pub struct Request<'a> {
    /// How it is asked.
    pub kind: Kind,
    /// The bytes of its URL.
    pub url: &'a [u8],
    /// The message: the 32 bytes of the digest to stamp, or a commitment of 1 to 4,096 bytes.
    pub message: &'a [u8],
}

impl Request<'_> {
    /// Which of two requests comes first in a sheet: a `get` before a `post`, and then by the bytes of
    /// the URLs, and then by those of the messages. That is the order of the bytes of their lines.
    pub fn order(&self, other: &Request<'_>) -> Ordering
        ensures { result ≡ request_order (request_parts self.now) (request_parts other.now) }
    {
        match (self.kind, other.kind) {
            (Kind::Get, Kind::Post) => Ordering::Less,
            (Kind::Post, Kind::Get) => Ordering::Greater,
            _ => self.order_alike(other),
        }
    }

    /// The same where both are asked alike.
    fn order_alike(&self, other: &Request<'_>) -> Ordering
        ensures { result ≡ alike_order (request_parts self.now) (request_parts other.now) }
    {
        match self.url.cmp(other.url) {
            Ordering::Equal => self.message.cmp(other.message),
            unequal => unequal,
        }
    }
}
