ghost use Rattle.std.specs.Prelude.{◌≡◌, ◌≤◌, ◌<◌, ◌+◌, ◌*◌, [], decimal, false, true, length, OnOk, OnErr};
ghost use Rattle.hex.specs.Hex.{encode_lower};
ghost use Rattle.ots_printer.specs.Printing.{Puts};

use crate::room::{ROOM, Room};
use ots_outside::{Failed, Sink, write_all};

/// The digits of how many bytes the room holds.
const PIECE: usize = ROOM / 2;

/// A borrowed sink with room before it, so that small pieces reach it together. Where a write fails,
/// what is put afterwards goes nowhere, and `finish` tells it. It takes no memory.
#[derive(Drop)]
pub struct Printer<'a, K: Sink> {
    sink: &'a mut K,
    held: Room,
    failed: bool,
}

impl<'a, K: Sink> Printer<'a, K> {
    /// A printer on the sink, which has put nothing.
    pub fn new(sink: &'a mut K) -> Printer<'a, K>
        ensures loan { result.sink.ghost_name ≡ sink.entry.ghost_name }
        ensures sink { result.sink.now ≡ sink.old }
        ensures empty { result.held ≡ [] }
        ensures good { result.failed ≡ false }
    {
        Printer {
            sink,
            held: Room::new(),
            failed: false,
        }
    }

    /// Puts bytes.
    pub fn bytes(&mut self, bytes: &[u8])
        ensures { Puts K.taken K.faults K.same bytes.now self.old self.new }
    {
        self.make_room(bytes.len());
        if bytes.len() <= ROOM {
            self.hold(bytes);
        } else {
            self.write(bytes);
        }
    }

    /// Puts a word.
    pub fn word(&mut self, word: &str)
        ensures { Puts K.taken K.faults K.same word.now self.old self.new }
    {
        self.bytes(word.as_bytes());
    }

    /// Puts a number in decimal digits.
    pub fn number(&mut self, number: u64)
        ensures { Puts K.taken K.faults K.same (decimal number) self.old self.new }
    {
        if number < 10 {
            self.bytes(&[b'0' + number as u8]);
        } else {
            self.word(itoa::Buffer::new().format(number));
        }
    }

    /// Puts bytes in lower-case hexadecimal.
    pub fn hex(&mut self, bytes: &[u8])
        ensures { Puts K.taken K.faults K.same (encode_lower bytes.now) self.old self.new }
    {
        let mut done = 0;
        while done < bytes.len() {
            let end = bytes.len().min(done + PIECE);
            self.piece_of_hex(&bytes[done..end]);
            done = end;
        }
    }

    /// The same of a piece.
    fn piece_of_hex(&mut self, bytes: &[u8])
        requires { length bytes.now ≤ PIECE }
        ensures { Puts K.taken K.faults K.same (encode_lower bytes.now) self.old self.new }
    {
        self.make_room(2 * bytes.len());
        self.hold_hex(bytes);
    }

    /// Writes what is held, and tells whether a write failed. Where none did, the sink has taken all
    /// that was put.
    pub fn finish(&mut self) -> Result<(), Failed>
        ensures loan { self.new.sink.ghost_name ≡ self.old.sink.ghost_name }
        ensures puts { Puts K.taken K.faults K.same [] self.old self.new }
        ensures empty { self.new.held ≡ [] }
        ensures good { OnOk result (self.new.failed ≡ false) }
        ensures failed { OnErr result (self.new.failed ≡ true) }
    {
        self.flush();
        if self.failed {
            return Err(Failed);
        }
        Ok(())
    }

    /// Leaves room for `count` bytes; or none is held, where they are more than there is room for.
    fn make_room(&mut self, count: usize)
        ensures puts { Puts K.taken K.faults K.same [] self.old self.new }
        ensures room { count ≤ ROOM → length self.new.held + count ≤ ROOM }
        ensures empty { ROOM < count → self.new.held ≡ [] }
    {
        if count > self.held.left() {
            self.flush();
        }
    }

    /// Writes what is held.
    fn flush(&mut self)
        ensures puts { Puts K.taken K.faults K.same [] self.old self.new }
        ensures empty { self.new.held ≡ [] }
    {
        if !self.failed {
            self.failed = write_all(self.sink, self.held.bytes()).is_err();
        }
        self.held.clear();
    }

    /// Holds bytes for which there is room.
    fn hold(&mut self, bytes: &[u8])
        requires { length self.old.held + length bytes.now ≤ ROOM }
        ensures { Puts K.taken K.faults K.same bytes.now self.old self.new }
    {
        self.held.push(bytes);
    }

    /// Holds the digits of bytes for which there is room.
    fn hold_hex(&mut self, bytes: &[u8])
        requires { length self.old.held + 2 * length bytes.now ≤ ROOM }
        ensures { Puts K.taken K.faults K.same (encode_lower bytes.now) self.old self.new }
    {
        self.held.push_hex(bytes);
    }

    /// Writes bytes, where none are held.
    fn write(&mut self, bytes: &[u8])
        requires { self.old.held ≡ [] }
        ensures { Puts K.taken K.faults K.same bytes.now self.old self.new }
    {
        if !self.failed {
            self.failed = write_all(self.sink, bytes).is_err();
        }
    }
}
