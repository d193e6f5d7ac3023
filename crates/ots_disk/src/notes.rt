//! The calls that a disk in memory has noted.
ghost use Rattle.std.specs.Prelude.{◌≡◌, ◌≤◌, ◌||◌, ◌++◌, ◌∷◌, [], length, IfOk, is_err};
ghost use Rattle.ots_base.specs.Cause.{HasCause, Rose};
ghost use Rattle.ots_disk.specs.Notes.{NotesTold, is_full, is_next_listed, after_note, refused};

use crate::{DiskCall, MadeCall};
use ots_base::OutOfMemory;
use ots_outside::{Count, Failed};
use std::alloc::Global;
use std::marker::Model;

/// The calls of a disk in memory, in memory that is reserved when it is made, and how many failed.
#[derive(Drop)]
pub struct Notes {
    calls: Vec<MadeCall>,
    room: usize,
    failing: Vec<u64>,
    faults: Count,
}

impl Model for Notes {
    ghost use Rattle.std.specs.Prelude.{◌≤◌, vec_capacity};
    ghost use Rattle.ots_disk.specs.Notes.{NotesTold};

    ghost Value = { NotesTold };

    ghost view = { λ n. record { calls = n.calls.items; room = n.room; failing = n.failing.items; faults = n.faults } };

    ghost invariant = { λ n. n.room ≤ vec_capacity n.calls };
}

impl Notes {
    /// No call was made yet. The calls of the numbers `failing` are to fail, the first being 1.
    pub fn new(alloc: Global, room: usize, failing: &[u64]) -> Result<Notes, OutOfMemory>
        ensures { IfOk result (λ n. n ≡ record { calls = []; room = room; failing = failing.now; faults = 0 }) }
    {
        Ok(Notes {
            calls: Vec::with_capacity(alloc, room)?,
            room,
            failing: failing.to_vec(alloc)?,
            faults: Count::new(),
        })
    }

    /// The calls, in order.
    pub fn calls(&self) -> &[MadeCall]
        ensures { result.now ≡ self.now.calls }
    {
        &self.calls
    }

    /// How many calls failed.
    pub fn faults(&self) -> u64
        ensures { result ≡ self.now.faults }
    {
        self.faults.value()
    }

    /// Whether there is no room for another call.
    pub fn is_full(&self) -> bool
        ensures { result ≡ is_full self.now }
    {
        self.calls.len() >= self.room
    }

    /// Counts a call that goes past what was reserved.
    pub fn refuse(&mut self)
        ensures refused { self.new ≡ refused self.old }
        ensures later { self.old.faults ≤ self.new.faults }
        ensures rose { Rose self.old.faults self.new.faults }
    {
        self.faults.rise();
    }

    /// Notes a call, which fails where its number is listed, or where there is no room for it.
    pub fn note(&mut self, call: DiskCall) -> Result<(), Failed>
        ensures failed { is_err result ≡ (is_full self.old || is_next_listed self.old) }
        ensures noted { self.new ≡ after_note self.old call }
        ensures cause { HasCause self.old.faults self.new.faults result }
    {
        if self.is_full() {
            self.refuse();
            return Err(Failed);
        }
        let number = self.calls.len() as u64 + 1;
        let failed = self.failing.contains(&number);
        self.calls.push(MadeCall { call, failed }).unwrap();
        if failed {
            self.faults.rise();
            return Err(Failed);
        }
        Ok(())
    }
}
