//! The text of a message before it is written.
ghost use Rattle.std.specs.Prelude.{◌≡◌, ◌≤◌, ◌+◌, ◌*◌, [], ◌++◌, length, decimal};
ghost use Rattle.hex.specs.Hex.{encode_lower};

use itoa::Buffer;
use ots_base::MAX_REPLY_BODY;
use std::marker::Model;

/// How many bytes the text of a message has room for: its head, and a page of records or a tree as
/// long as one. A request is shorter, also one for a message's timestamp, with two digits a byte.
pub(crate) const ROOM: usize = MAX_REPLY_BODY + 256;

/// A text of at most `N` bytes that grows in place, so that a whole message is written at once and takes
/// no memory.
///
/// Contracts see the list of its bytes.
#[derive(Drop)]
pub(crate) struct Draft<const N: usize> {
    bytes: [u8; N],
    length: usize,
}

impl<const N: usize> Model for Draft<N> {
    ghost use Rattle.std.specs.Prelude.{ℕ, List, take};
    ghost use Rattle.ots_http.specs.DraftRoom.{HasRoom};

    ghost Value = { List ℕ };

    ghost view = { λ d. take d.length d.bytes };

    ghost invariant = { λ d. HasRoom N d.bytes d.length };
}

impl<const N: usize> Draft<N> {
    /// No byte yet.
    pub(crate) fn new() -> Draft<N>
        ensures { result ≡ [] }
    {
        Draft {
            bytes: [0; N],
            length: 0,
        }
    }

    /// Adds these bytes at the end.
    pub(crate) fn add(&mut self, piece: &[u8])
        requires { length self.old + length piece.now ≤ N }
        ensures { self.new ≡ self.old ++ piece.now }
    {
        let end = self.length + piece.len();
        let bytes = &mut self.bytes[..];
        bytes[self.length..end].copy_from_slice(piece);
        self.length = end;
    }

    /// Adds a number in decimal digits, of which it has 20 at most.
    pub(crate) fn add_number(&mut self, number: u64)
        requires { length self.old + 20 ≤ N }
        ensures number { self.new ≡ self.old ++ decimal number }
        ensures length { length self.new ≤ length self.old + 20 }
    {
        let mut digits = Buffer::new();
        self.add(digits.format(number).as_bytes());
    }

    /// Adds these bytes in hexadecimal, two digits a byte.
    pub(crate) fn add_hex(&mut self, bytes: &[u8])
        requires { length self.old + 2 * length bytes.now ≤ N }
        ensures hex { self.new ≡ self.old ++ encode_lower bytes.now }
        ensures length { length self.new ≡ length self.old + 2 * length bytes.now }
    {
        let end = self.length + 2 * bytes.len();
        let room = &mut self.bytes[..];
        hex::encode_to_slice(bytes, &mut room[self.length..end]).unwrap();
        self.length = end;
    }

    /// How many bytes more it has room for.
    pub(crate) fn room(&self) -> usize
        ensures { length self.now + result ≡ N }
    {
        N - self.length
    }

    /// The bytes.
    pub(crate) fn text(&self) -> &[u8]
        ensures { result.now ≡ self.now }
    {
        &self.bytes[..self.length]
    }
}
