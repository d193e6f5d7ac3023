//! The records in memory, a list of each kind.
ghost use Rattle.std.specs.Prelude.{◌≡◌, ◌≢◌, ◌≤◌, ◌+◌, ◌^◌, ◌<◌, ◌++◌, ◌∷◌, [], List, length, IsOk, OnOk, OnErr};
ghost use Rattle.ots_store.specs.Records.{Record, tip_at, anchor_at, record_of, IsRecord};
ghost use Rattle.ots_store.specs.Forms.{IsAnchor};
ghost use Rattle.ots_store.specs.Order.{covered_by};
ghost use Rattle.ots_store.specs.Ranges.{RisesFrom};
ghost use Rattle.ots_store.specs.Held.{Holds};
ghost use Rattle.ots_store.specs.Marked.{IsPushed, IsSame};

use crate::form::{COMMIT, TIP};
use crate::marked::Marked;
use crate::reading::{read_anchor, read_tip};
use crate::{Anchor, Tip};
use ots_base::OutOfMemory;
use std::alloc::Global;
use std::marker::Model;

/// The records of a store by kind, those in flight after the acknowledged ones.
#[derive(Drop)]
pub struct Lists {
    alloc: Global,
    commitments: Marked<[u8; 44]>,
    tips: Marked<Tip>,
    anchors: Marked<Anchor>,
}

impl Model for Lists {
    ghost use Rattle.std.specs.Prelude.{min};
    ghost use Rattle.ots_store.specs.Held.{HeldTold};

    ghost Value = { HeldTold };

    ghost view = { λ h. record {
      commitments = h.commitments;
      tips = h.tips;
      anchors = h.anchors;
      spare = min h.commitments.spare h.tips.spare;
    } };
}

impl Lists {
    /// No record.
    pub fn new(alloc: Global) -> Lists
        ensures { Holds [] [] result }
    {
        Lists {
            alloc,
            commitments: Marked::new(alloc),
            tips: Marked::new(alloc),
            anchors: Marked::new(alloc),
        }
    }

    /// The acknowledged commitments.
    pub fn commitments(&self) -> &[[u8; 44]]
        ensures { result.now ≡ self.now.commitments.kept }
    {
        self.commitments.kept()
    }

    /// The acknowledged tips.
    pub fn tips(&self) -> &[Tip]
        ensures { result.now ≡ self.now.tips.kept }
    {
        self.tips.kept()
    }

    /// The acknowledged anchors.
    pub fn anchors(&self) -> &[Anchor]
        ensures { result.now ≡ self.now.anchors.kept }
    {
        self.anchors.kept()
    }

    /// How many of the commitments anchors cover.
    pub fn covered(&self) -> u64
        requires rises { RisesFrom 0 self.now.anchors.kept }
        requires small { covered_by self.now.anchors.kept < 2 ^ 64 }
        ensures { result ≡ covered_by self.now.anchors.kept }
    {
        let anchors = self.anchors.kept();
        if anchors.is_empty() {
            return 0;
        }
        let last = &anchors[anchors.len() - 1];
        last.first + last.count
    }

    /// How many commitments are in flight.
    pub fn commitments_in_flight(&self) -> usize
        ensures count { result ≡ length self.now.commitments.flight }
        ensures bound { result < 2 ^ 63 }
    {
        self.commitments.in_flight()
    }

    /// Takes the memory for some commitments and tips more.
    pub fn reserve(&mut self, more: usize) -> Result<(), OutOfMemory>
        ensures holds { (kept flight : List Record) → Holds kept flight self.old → Holds kept flight self.new }
        ensures commitments { self.new.commitments.kept ≡ self.old.commitments.kept }
        ensures in_flight { self.new.commitments.flight ≡ self.old.commitments.flight }
        ensures ok { OnOk result (more ≤ self.new.spare) }
    {
        self.commitments.reserve(more)?;
        self.tips.reserve(more)
    }

    /// Puts a record in flight after those that are. A commitment and a tip take memory only where
    /// none is spare.
    pub fn stage(&mut self, kind: u8, payload: &[u8]) -> Result<(), OutOfMemory>
        requires { IsRecord (record { kind = kind; payload = payload.now }) }
        ensures ok { OnOk result ((kept flight : List Record) → Holds kept flight self.old
            → Holds kept (flight ++ record_of (record { kind = kind; payload = payload.now }) ∷ []) self.new) }
        ensures err { OnErr result ((kept flight : List Record) → Holds kept flight self.old
            → Holds kept flight self.new) }
        ensures kept { self.new.commitments.kept ≡ self.old.commitments.kept }
        ensures one { length self.new.commitments.flight ≤ length self.old.commitments.flight + 1 }
        ensures not_refused { 0 < self.old.spare → kind ≢ 3 → IsOk result }
    {
        if kind == COMMIT {
            return self.stage_commitment(payload);
        }
        if kind == TIP {
            return self.stage_tip(payload);
        }
        self.stage_anchor(payload)
    }

    fn stage_commitment(&mut self, payload: &[u8]) -> Result<(), OutOfMemory>
        requires { length payload.now ≡ 44 }
        ensures ok { OnOk result (IsPushed self.old.commitments self.new.commitments payload.now) }
        ensures err { OnErr result (IsSame self.old.commitments self.new.commitments) }
        ensures not_refused { 0 < self.old.spare → IsOk result }
        ensures kept { self.new.commitments.kept ≡ self.old.commitments.kept }
        ensures one { length self.new.commitments.flight ≤ length self.old.commitments.flight + 1 }
        ensures tips { self.new.tips ≡ self.old.tips }
        ensures anchors { self.new.anchors ≡ self.old.anchors }
    {
        let mut commitment = [0; 44];
        commitment.copy_from_slice(payload);
        self.commitments.push(commitment)
    }

    fn stage_tip(&mut self, payload: &[u8]) -> Result<(), OutOfMemory>
        requires { length payload.now ≡ 48 }
        ensures ok { OnOk result (IsPushed self.old.tips self.new.tips (tip_at payload.now)) }
        ensures err { OnErr result (IsSame self.old.tips self.new.tips) }
        ensures not_refused { 0 < self.old.spare → IsOk result }
        ensures commitments { self.new.commitments ≡ self.old.commitments }
        ensures anchors { self.new.anchors ≡ self.old.anchors }
    {
        self.tips.push(read_tip(payload))
    }

    fn stage_anchor(&mut self, payload: &[u8]) -> Result<(), OutOfMemory>
        requires { IsAnchor payload.now }
        ensures ok { OnOk result (IsPushed self.old.anchors self.new.anchors (anchor_at payload.now)) }
        ensures err { OnErr result (IsSame self.old.anchors self.new.anchors) }
        ensures commitments { self.new.commitments ≡ self.old.commitments }
        ensures tips { self.new.tips ≡ self.old.tips }
    {
        let anchor = read_anchor(self.alloc, payload)?;
        self.anchors.push(anchor)
    }

    /// Acknowledges all records in flight.
    pub fn keep(&mut self)
        ensures holds { (kept flight : List Record) → Holds kept flight self.old → Holds (kept ++ flight) [] self.new }
        ensures kept { self.new.commitments.kept ≡ self.old.commitments.kept ++ self.old.commitments.flight }
        ensures flight { self.new.commitments.flight ≡ [] }
        ensures spare { self.old.spare ≤ self.new.spare }
    {
        self.commitments.keep();
        self.tips.keep();
        self.anchors.keep();
    }

    /// Takes all records in flight away.
    pub fn forget(&mut self)
        ensures holds { (kept flight : List Record) → Holds kept flight self.old → Holds kept [] self.new }
        ensures kept { self.new.commitments.kept ≡ self.old.commitments.kept }
        ensures flight { self.new.commitments.flight ≡ [] }
        ensures spare { self.old.spare ≤ self.new.spare }
    {
        self.commitments.forget();
        self.tips.forget();
        self.anchors.forget();
    }
}
