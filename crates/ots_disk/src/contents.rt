//! The bytes of a disk in memory.
ghost use Rattle.std.specs.Prelude.{◌≡◌, ◌≤◌, ◌+◌, ◌++◌, length, take, drop, min, IfOk};
ghost use Rattle.ots_disk.specs.Disk.{put};

use ots_base::OutOfMemory;
use std::alloc::Global;
use std::marker::Model;

/// The bytes of a file in memory that is reserved when it is made.
#[derive(Drop)]
pub struct Contents {
    bytes: Vec<u8>,
    room: usize,
}

impl Model for Contents {
    ghost use Rattle.std.specs.Prelude.{◌≤◌, vec_capacity};
    ghost use Rattle.ots_disk.specs.Reserved.{ContentsTold};

    ghost Value = { ContentsTold };

    ghost view = { λ c. record { bytes = c.bytes.items; room = c.room } };

    ghost invariant = { λ c. c.room ≤ vec_capacity c.bytes };
}

impl Contents {
    /// These bytes, with memory for as many as `room`.
    pub fn new(alloc: Global, bytes: &[u8], room: usize) -> Result<Contents, OutOfMemory>
        ensures { IfOk result (λ c. c ≡ record { bytes = bytes.now; room = room }) }
    {
        let mut copy = Vec::with_capacity(alloc, room)?;
        copy.extend_from_slice(bytes)?;
        Ok(Contents { bytes: copy, room })
    }

    /// The bytes.
    pub fn bytes(&self) -> &[u8]
        ensures { result.now ≡ self.now.bytes }
    {
        &self.bytes
    }

    /// The room.
    pub fn room(&self) -> usize
        ensures { result ≡ self.now.room }
    {
        self.room
    }

    /// Writes a piece over what is there, and past the end.
    pub fn put(&mut self, place: usize, piece: &[u8])
        requires at { place ≤ length self.old.bytes }
        requires fits { place + length piece.now ≤ self.old.room }
        ensures bytes { self.new.bytes ≡ put place piece.now self.old.bytes }
        ensures room { self.new.room ≡ self.old.room }
    {
        let over = piece.len().min(self.bytes.len() - place);
        copy_over(&mut self.bytes, place, &piece[..over]);
        self.bytes.extend_from_slice(&piece[over..]).unwrap();
    }
}

/// Copies a piece over the bytes from a place on.
fn copy_over(bytes: &mut [u8], place: usize, piece: &[u8])
    requires { place + length piece.now ≤ length bytes.old }
    ensures { bytes.new ≡ put place piece.now bytes.old }
{
    bytes[place..place + piece.len()].copy_from_slice(piece);
}
