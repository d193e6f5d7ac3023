//! A calendar's tree that grows.
ghost use Rattle.std.specs.Prelude.{◌≡◌, ◌≤◌, ◌<◌, ◌+◌, ◌++◌, ◌∷◌, [], OnOk, is_ok, IsOk, if◌then◌else◌};
ghost use Rattle.ots_merkle.specs.CalendarTree.{root_if_any};

use crate::pushed::Pushed;
use crate::row::{Level, add_growing, fold};
use ots_base::OutOfMemory;
use std::alloc::Global;
use std::marker::Model;

/// How many free places of the row are enough for any number of pushes, which a `usize` counts:
/// with 65 places more, a row stands for more than 2^64 leaves more.
const PLACES_FOR_ANY: usize = 65;

/// The leaves of a calendar's tree that grows, of which only the roots of whole parts are kept: one
/// hash for each 1 of the count of leaves, written in base two.
///
/// Contracts see the list of the leaves that were pushed, and how many pushes can't be refused from
/// here on.
#[derive(Drop)]
pub struct Peaks {
    row: Vec<Level>,
    // Which leaves were pushed, for contracts alone.
    pushed: Pushed,
}

impl Model for Peaks {
    ghost use Rattle.std.specs.Prelude.{◌≡◌, ◌-◌, ◌^◌, [], length, vec_capacity};
    ghost use Rattle.ots_merkle.specs.Grown.{Grown};
    ghost use Rattle.ots_merkle.specs.Row.{all_added};

    ghost Value = { Grown };

    ghost view = { λ p. record {
      leaves = p.pushed.leaves;
      spare = 2 ^ vec_capacity p.row - 1 - length
          p.pushed.leaves;
    } };

    ghost invariant = { λ p. p.row.items ≡ all_added [] p.pushed.leaves };
}

impl Peaks {
    /// No leaf yet. The hashes that are kept lie in memory of `alloc`.
    pub fn new(alloc: Global) -> Peaks
        ensures { result.leaves ≡ [] }
    {
        Peaks {
            row: Vec::new(alloc),
            pushed: Pushed::nothing(),
        }
    }

    /// Adds a leaf after the others, which takes one hash on average. Where memory ran out, the
    /// leaves are as before. It takes memory only where no spare push is left.
    pub fn push(&mut self, leaf: [u8; 32]) -> Result<(), OutOfMemory>
        ensures leaves { self.new.leaves ≡ (if is_ok result then self.old.leaves ++ leaf ∷ [] else self.old.leaves) }
        ensures spare { self.old.spare ≤ (if is_ok result then self.new.spare + 1 else self.new.spare) }
        ensures not_refused { 0 < self.old.spare → IsOk result }
    {
        add_growing(&mut self.row, &leaf)?;
        self.pushed = self.pushed.and(&leaf);
        Ok(())
    }

    /// Makes room, so that the next `pushes` pushes at least can't be refused. The leaves stay.
    pub fn reserve(&mut self, pushes: usize) -> Result<(), OutOfMemory>
        ensures leaves { self.new.leaves ≡ self.old.leaves }
        ensures kept { self.old.spare ≤ self.new.spare }
        ensures spare { OnOk result (pushes ≤ self.new.spare) }
    {
        // The room is enough for any number of them, 65 places.
        let _ = pushes;
        self.row.reserve(PLACES_FOR_ANY)?;
        Ok(())
    }

    /// The root of the calendar's tree of the leaves that were pushed, which takes one hash less
    /// than hashes are kept: `None` exactly where there is no leaf. It takes no memory.
    pub fn root(&self) -> Option<[u8; 32]>
        ensures { result ≡ root_if_any self.now.leaves }
    {
        fold(&self.row)
    }
}
