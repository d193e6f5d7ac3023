//! Memory taken beforehand for the pieces of noted writes.
ghost use Rattle.std.specs.Prelude.{◌≡◌, ◌≤◌, ◌<◌, ◌+◌, All, length, IfOk};
ghost use Rattle.ots_disk.specs.Reserved.{SpareTold, IsSparePiece};

use ots_base::OutOfMemory;
use ots_outside::Bytes;
use std::alloc::Global;
use std::marker::Model;

/// Memory for the bytes of writes, reserved piece by piece.
#[derive(Drop)]
pub struct SparePieces {
    pieces: Vec<Vec<u8>>,
    room: usize,
}

impl Model for SparePieces {
    ghost use Rattle.std.specs.Prelude.{All, length};
    ghost use Rattle.ots_disk.specs.Reserved.{SpareTold, IsSparePiece};

    ghost Value = { SpareTold };

    ghost view = { λ s. record { left = length s.pieces.items; room = s.room } };

    ghost invariant = { λ s. All (IsSparePiece s.room) s.pieces.items };
}

impl SparePieces {
    /// Memory for `count` pieces of at most `room` bytes.
    pub fn new(alloc: Global, count: usize, room: usize) -> Result<SparePieces, OutOfMemory>
        ensures { IfOk result (λ s. s ≡ record { left = count; room = room }) }
    {
        Ok(SparePieces {
            pieces: spare(alloc, count, room)?,
            room,
        })
    }

    /// The room of a piece.
    pub fn room(&self) -> usize
        ensures { result ≡ self.now.room }
    {
        self.room
    }

    /// A piece's bytes, in memory that was spare.
    pub fn fill(&mut self, piece: &[u8]) -> Bytes
        requires some { 0 < self.old.left }
        requires fits { length piece.now ≤ self.old.room }
        ensures bytes { result ≡ piece.now }
        ensures taken { self.new.left + 1 ≡ self.old.left }
        ensures room { self.new.room ≡ self.old.room }
    {
        let mut filled = self.pieces.pop().unwrap();
        filled.extend_from_slice(piece).unwrap();
        Bytes::from_vec(filled)
    }
}

fn spare(alloc: Global, count: usize, room: usize) -> Result<Vec<Vec<u8>>, OutOfMemory>
    ensures count { IfOk result (λ pieces. length pieces.items ≡ count) }
    ensures spare { IfOk result (λ pieces. All (IsSparePiece room) pieces.items) }
{
    let mut pieces = Vec::with_capacity(alloc, count)?;
    for _ in 0..count {
        pieces.push(Vec::with_capacity(alloc, room)?)?;
    }
    Ok(pieces)
}
