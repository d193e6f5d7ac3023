ghost use Rattle.std.specs.Prelude.{◌≡◌, ◌++◌, [], false, IfOk};
ghost use Rattle.ots_memory.specs.Reserved.{is_past};

use ots_base::OutOfMemory;
use std::alloc::Global;
use std::marker::Model;

/// Bytes that grow at their end, up to a capacity that is reserved when it is made.
#[derive(Drop)]
pub struct Output {
    bytes: Vec<u8>,
    capacity: usize,
}

impl Model for Output {
    ghost use Rattle.std.specs.Prelude.{◌≤◌, length, vec_capacity};
    ghost use Rattle.ots_memory.specs.Reserved.{OutputTold};

    ghost Value = { OutputTold };

    ghost view = { λ o. record { taken = o.bytes.items; capacity = o.capacity } };

    ghost invariant = { λ o. (length o.bytes.items ≤ o.capacity) × (o.capacity ≤ vec_capacity o.bytes) };
}

impl Output {
    /// Nothing is taken yet.
    pub fn new(alloc: Global, capacity: usize) -> Result<Output, OutOfMemory>
        ensures { IfOk result (λ o. o ≡ record { taken = []; capacity = capacity }) }
    {
        Ok(Output {
            bytes: Vec::with_capacity(alloc, capacity)?,
            capacity,
        })
    }

    /// The bytes taken.
    pub fn bytes(&self) -> &[u8]
        ensures { result.now ≡ self.now.taken }
    {
        &self.bytes
    }

    /// Whether this piece passes the capacity.
    pub fn is_past(&self, piece: &[u8]) -> bool
        ensures { result ≡ is_past self.now.taken self.now.capacity piece.now }
    {
        piece.len() > self.capacity - self.bytes.len()
    }

    /// Takes a piece, which doesn't pass the capacity.
    pub fn take(&mut self, piece: &[u8])
        requires fits { is_past self.old.taken self.old.capacity piece.now ≡ false }
        ensures { self.new ≡ record { taken = self.old.taken ++ piece.now; capacity = self.old.capacity } }
    {
        self.bytes.extend_from_slice(piece).unwrap();
    }
}
