//! The records in memory, and the index of their commitments.
ghost use Rattle.std.specs.Prelude.{◌≡◌, ◌≢◌, ◌≤◌, ◌<◌, ◌^◌, ◌++◌, ◌∷◌, [], List, length, find, IsOk, IfOk, OnOk};
ghost use Rattle.std.specs.Prelude.{OnErr};
ghost use Rattle.std.specs.Option.{option_copied};
ghost use Rattle.ots_store.specs.Records.{Record, record_of, IsRecord};
ghost use Rattle.ots_store.specs.Order.{covers, covered_by};
ghost use Rattle.ots_store.specs.Ranges.{RisesFrom};
ghost use Rattle.ots_store.specs.Index.{least};
ghost use Rattle.ots_store.specs.Held.{Holds};

use crate::index::Index;
use crate::lists::Lists;
use crate::ranges::find_range;
use crate::{Anchor, Tip};
use ots_base::OutOfMemory;
use std::alloc::Global;
use std::marker::Model;

/// The records of a store, with the index of the acknowledged commitments. The index has room for
/// those in flight.
#[derive(Drop)]
pub struct Held {
    lists: Lists,
    index: Index,
}

impl Model for Held {
    ghost use Rattle.std.specs.Prelude.{◌≤◌, ◌+◌, ◌-◌, min, length, vec_len, vec_capacity};
    ghost use Rattle.ots_store.specs.Held.{HeldTold};
    ghost use Rattle.ots_store.specs.Places.{Indexes};

    ghost Value = { HeldTold };

    ghost view = { λ h. record h.lists {
      spare = min h.lists.spare (vec_capacity h.index.places -
          (length h.lists.commitments.kept + length h.lists.commitments.flight));
    } };

    ghost invariant = { λ h. Indexes (length h.lists.commitments.kept) h.index.places.items h.lists.commitments.kept
        × (length h.lists.commitments.kept + length h.lists.commitments.flight ≤ vec_capacity h.index.places) };
}

impl Held {
    /// These records, of which none is in flight.
    pub fn of(alloc: Global, lists: Lists) -> Result<Held, OutOfMemory>
        requires few { length lists.commitments.kept ≤ 2 ^ 32 }
        requires none { lists.commitments.flight ≡ [] }
        ensures { IfOk result (λ held. (kept flight : List Record) → Holds kept flight lists → Holds kept flight held) }
    {
        let index = Index::of(alloc, lists.commitments())?;
        Ok(Held { lists, index })
    }

    /// The acknowledged commitments.
    pub fn commitments(&self) -> &[[u8; 44]]
        ensures { result.now ≡ self.now.commitments.kept }
    {
        self.lists.commitments()
    }

    /// The acknowledged tips.
    pub fn tips(&self) -> &[Tip]
        ensures { result.now ≡ self.now.tips.kept }
    {
        self.lists.tips()
    }

    /// How many of the commitments anchors cover.
    pub fn covered(&self) -> u64
        requires rises { RisesFrom 0 self.now.anchors.kept }
        requires small { covered_by self.now.anchors.kept < 2 ^ 64 }
        ensures { result ≡ covered_by self.now.anchors.kept }
    {
        self.lists.covered()
    }

    /// The least index of an acknowledged commitment.
    pub fn index_of(&self, commitment: &[u8; 44]) -> Option<u64>
        ensures { result ≡ least commitment.now self.now.commitments.kept }
    {
        self.index.find(self.lists.commitments(), commitment)
    }

    /// The first acknowledged anchor that covers an index.
    pub fn anchor_of(&self, i: u64) -> Option<&Anchor>
        requires { RisesFrom 0 self.now.anchors.kept }
        ensures { option_copied result ≡ find (covers i) self.now.anchors.kept }
    {
        find_range(self.lists.anchors(), i)
    }

    /// Takes the memory for one commitment or one tip more.
    pub fn reserve(&mut self) -> Result<(), OutOfMemory>
        ensures holds { (kept flight : List Record) → Holds kept flight self.old → Holds kept flight self.new }
        ensures ok { OnOk result (0 < self.new.spare) }
    {
        self.lists.reserve(1)?;
        let more = self.lists.commitments_in_flight() + 1;
        self.index.reserve(more)
    }

    /// Puts a record in flight after those that are. A commitment and a tip take memory only where
    /// none is spare.
    pub fn stage(&mut self, kind: u8, payload: &[u8]) -> Result<(), OutOfMemory>
        requires { IsRecord (record { kind = kind; payload = payload.now }) }
        ensures ok { OnOk result ((kept flight : List Record) → Holds kept flight self.old
            → Holds kept (flight ++ record_of (record { kind = kind; payload = payload.now }) ∷ []) self.new) }
        ensures err { OnErr result ((kept flight : List Record) → Holds kept flight self.old
            → Holds kept flight self.new) }
        ensures not_refused { 0 < self.old.spare → kind ≢ 3 → IsOk result }
    {
        let more = self.lists.commitments_in_flight() + 1;
        self.index.reserve(more)?;
        self.lists.stage(kind, payload)
    }

    /// Acknowledges all records in flight. It takes no memory.
    pub fn keep(&mut self)
        requires few { length (self.old.commitments.kept ++ self.old.commitments.flight) ≤ 2 ^ 32 }
        ensures holds { (kept flight : List Record) → Holds kept flight self.old → Holds (kept ++ flight) [] self.new }
        ensures spare { self.old.spare ≤ self.new.spare }
    {
        self.lists.keep();
        self.index.catch_up(self.lists.commitments());
    }

    /// Takes all records in flight away.
    pub fn forget(&mut self)
        ensures holds { (kept flight : List Record) → Holds kept flight self.old → Holds kept [] self.new }
        ensures spare { self.old.spare ≤ self.new.spare }
    {
        self.lists.forget();
    }
}
