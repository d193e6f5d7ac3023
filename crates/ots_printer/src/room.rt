//! The room before a sink.
ghost use Rattle.std.specs.Prelude.{◌≡◌, ◌≤◌, ◌+◌, ◌*◌, ◌++◌, [], length};
ghost use Rattle.hex.specs.Hex.{encode_lower};

use std::marker::Model;

/// How many bytes are gathered before they are written.
pub(crate) const ROOM: usize = 8192;

/// Bytes that are held for a sink, at most 8192. Contracts see them as a list.
#[derive(Drop)]
pub(crate) struct Room {
    bytes: [u8; ROOM],
    filled: usize,
}

impl Model for Room {
    ghost use Rattle.std.specs.Prelude.{◌≤◌, ℕ, List, take};
    ghost use Rattle.ots_printer.specs.declared.room.TheConstants.{ROOM};

    ghost Value = { List ℕ };

    ghost view = { λ r. take r.filled r.bytes };

    ghost invariant = { λ r. r.filled ≤ ROOM };
}

impl Room {
    /// Nothing is held.
    pub(crate) fn new() -> Room
        ensures { result ≡ [] }
    {
        Room {
            bytes: [0; ROOM],
            filled: 0,
        }
    }

    /// The bytes that are held.
    pub(crate) fn bytes(&self) -> &[u8]
        ensures { result.now ≡ self.now }
    {
        &self.bytes[..self.filled]
    }

    /// For how many more bytes there is room.
    pub(crate) fn left(&self) -> usize
        ensures { length self.now + result ≡ ROOM }
    {
        ROOM - self.filled
    }

    /// Holds more bytes.
    pub(crate) fn push(&mut self, bytes: &[u8])
        requires { length self.old + length bytes.now ≤ ROOM }
        ensures { self.new ≡ self.old ++ bytes.now }
    {
        let end = self.filled + bytes.len();
        self.bytes[self.filled..end].copy_from_slice(bytes);
        self.filled = end;
    }

    /// Holds the digits of more bytes, two for each.
    pub(crate) fn push_hex(&mut self, bytes: &[u8])
        requires { length self.old + 2 * length bytes.now ≤ ROOM }
        ensures { self.new ≡ self.old ++ encode_lower bytes.now }
    {
        let end = self.filled + 2 * bytes.len();
        if hex::encode_to_slice(bytes, &mut self.bytes[self.filled..end]).is_ok() {
            self.filled = end;
        }
    }

    /// Holds nothing any more.
    pub(crate) fn clear(&mut self)
        ensures { self.new ≡ [] }
    {
        self.filled = 0;
    }
}
