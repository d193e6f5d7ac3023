//! A journal that is open: its entries are read, and groups of entries appended.
ghost use Rattle.std.specs.Prelude.{◌≡◌, ◌≤◌, ◌<◌, ◌+◌, ◌^◌, ◌++◌, ◌∷◌, ℕ, List, [], length, true, false, slice_get};
ghost use Rattle.std.specs.Prelude.{Some, Ok, Err, IsTrue, IsOk, IfOk, IfErr, MatchResult, IsErrOf, OnOk, OnErr};
ghost use Rattle.ots_base.specs.Cause.{HasCause, HasCauseWhere};
ghost use Rattle.ots_base.specs.Told.{IfTold};
ghost use Rattle.ots_disk.specs.Disk.{LeavesOnly};
ghost use Rattle.ots_journal.specs.declared.entry.Entry.{Entry};
ghost use Rattle.ots_journal.specs.declared.limits.TheConstants.{EMPTY_JOURNAL, MAX_JOURNAL, MIN_ENTRY_PAYLOAD};
ghost use Rattle.ots_journal.specs.declared.limits.TheConstants.{MAX_ENTRY_PAYLOAD};
ghost use Rattle.ots_journal.specs.Image.{Stands, FitsGroup};
ghost use Rattle.ots_journal.specs.Opening.{Refuses, OpenedFrom, StoodFor, IsFullOrCause, IsGate, IsOfBytes};
ghost use Rattle.ots_journal.specs.Journal.{JournalTold, IsAtMost, size_with, StandsForEither, StandsNow, Refreshed};
ghost use Rattle.ots_journal.specs.Journal.{Unrefreshed, Appends, UsesRoom, Keeps, Puts, Settles};
ghost use Rattle.ots_journal.specs.Stored.{staged_bytes};
ghost use Rattle.ots_journal.specs.Within.{StaysWithin};

use crate::device::{is_gate_open, put_staged};
use crate::opening::find_journal;
use crate::spelling::{entries_size, payloads_size};
use crate::stored::Stored;
use crate::{AppendError, DiskFault, Entry, JournalError, Refused};
use ots_base::OutOfMemory;
use ots_disk::Disk;
use std::alloc::Global;
use std::marker::Model;

/// A list of entries on a disk.
///
/// It is sure where nothing is in flight. A `DiskFault` of an append leaves it unsure: its group is
/// in flight until a `refresh` that answers `Ok`.
#[derive(Drop)]
pub struct Journal<D: Disk> {
    disk: D,
    stored: Stored,
    sure: bool,
    limit: u64,
}

impl<D: Disk> Model for Journal<D> {
    ghost use Rattle.std.specs.Prelude.{◌≡◌, ℕ, List, [], true, false};
    ghost use Rattle.ots_journal.specs.Journal.{JournalTold, Keeps, IsAtMost, IsWithin};
    ghost use Rattle.ots_journal.specs.Stored.{staged_bytes};

    ghost Value = { JournalTold D };

    ghost view = { λ j. record {
      disk = j.disk;
      entries = j.stored.entries;
      flight = j.stored.flight;
      is_sure = j.sure;
      gate = j.stored.size;
      limit = j.limit;
      spare_entries = j.stored.spare_entries;
      spare_bytes = j.stored.spare_bytes;
    } };

    ghost invariant = { λ j. Keeps (D.images j.disk) j.stored.entries j.stored.flight j.sure j.stored.size
        × IsWithin j.limit j.stored.size j.stored.flight j.sure
        × (j.sure ≡ true → j.stored.staged ≡ [])
        × (j.sure ≡ false → j.stored.staged ≡ staged_bytes j.stored.flight)
        × ((c : List ℕ) → D.images j.disk c → IsAtMost j.limit c) };
}

impl<D: Disk> Journal<D> {
    /// Opens a file as a journal. A file of at most `EMPTY_JOURNAL` bytes becomes an empty one, whatever it
    /// holds; a longer one is never written to.
    pub fn open(alloc: Global, disk: D, limit: u64) -> Result<Journal<D>, Refused<D>>
        requires least { EMPTY_JOURNAL ≤ limit }
        requires most { limit ≤ MAX_JOURNAL }
        ensures sure { IfOk result (λ j. (j.is_sure ≡ true) × (j.flight ≡ []) × (j.limit ≡ limit)) }
        ensures list { IfTold (D.bytes disk) (λ b. IfOk result (λ j. Stands b j.entries)) }
        ensures gate { IfTold (D.bytes disk) (λ b. IfOk result (λ j. IsGate b j.gate)) }
        ensures images { IfOk result (λ j. (c : List ℕ) → D.images j.disk c → Stands c j.entries) }
        ensures why { IfTold (D.bytes disk) (λ b. IfErr result (λ r. Refuses limit b r.why)) }
        ensures full { IfTold (D.bytes disk) (λ b. limit < length b
            → MatchResult result (λ _. ⊥) (λ r. IsFullOrCause r.why)) }
        ensures accepts { (entries : List Entry) → IfTold (D.bytes disk) (λ b. Stands b entries
            → IfErr result (λ r. IsOfBytes r.why → ⊥)) }
        ensures stays_ok { IfTold (D.bytes disk) (λ b. EMPTY_JOURNAL < length b
            → IfOk result (λ j. D.bytes j.disk ≡ Some b)) }
        ensures stays_err { IfTold (D.bytes disk) (λ b. EMPTY_JOURNAL < length b
            → IfErr result (λ r. D.bytes r.disk ≡ Some b)) }
        ensures any_moment_ok { IfOk result (λ j. LeavesOnly D.clock D.images_since disk j.disk
            (OpenedFrom (D.images disk))) }
        ensures any_moment_err { IfErr result (λ r. LeavesOnly D.clock D.images_since disk r.disk
            (OpenedFrom (D.images disk))) }
        ensures stood_ok { ((c : List ℕ) → D.images disk c → (entries : List Entry) × Stands c entries)
            → IfOk result (λ j. LeavesOnly D.clock D.images_since disk j.disk (StoodFor (D.images disk))) }
        ensures stood_err { ((c : List ℕ) → D.images disk c → (entries : List Entry) × Stands c entries)
            → IfErr result (λ r. LeavesOnly D.clock D.images_since disk r.disk (StoodFor (D.images disk))) }
        ensures faults_ok { IfOk result (λ j. D.faults disk ≤ D.faults j.disk) }
        ensures cause { IfErr result (λ r. HasCauseWhere (r.why ≡ JournalError.DiskFault) (D.faults disk)
            (D.faults r.disk)) }
    {
        let mut disk = disk;
        match find_journal(alloc, &mut disk, limit) {
            Ok(stored) => Ok(Journal {
                disk,
                stored,
                sure: true,
                limit,
            }),
            Err(why) => Err(Refused { disk, why }),
        }
    }

    /// The number of acknowledged entries.
    pub fn count(&self) -> u64
        ensures count { result ≡ length self.now.entries }
        ensures bound { result < 2 ^ 32 }
    {
        self.stored.count() as u64
    }

    /// Whether it is known that nothing is in flight.
    pub fn is_sure(&self) -> bool
        ensures { result ≡ self.now.is_sure }
    {
        self.sure
    }

    /// The place of the closed gate after the acknowledged entries.
    pub fn gate(&self) -> u64
        ensures { result ≡ self.now.gate }
    {
        self.stored.size() as u64
    }

    /// How often the disk has failed.
    pub fn faults(&self) -> u64
        ensures { result ≡ D.faults self.now.disk }
    {
        self.disk.faults()
    }

    /// An acknowledged entry: its kind and its payload.
    pub fn entry(&self, i: u64) -> (u8, &[u8])
        requires { i < length self.now.entries }
        ensures { slice_get self.now.entries i ≡ Some (record { kind = result.0; payload = result.1.now }) }
    {
        self.stored.entry(i as usize)
    }

    /// Every image of the disk stands for the entries, or for these and the group in flight; of a
    /// sure journal, for the entries. No image has more bytes than the limit, so none is refused as
    /// `Full` when it is opened with that limit. It does nothing: its clause is what each journal
    /// keeps.
    pub fn stands(&self)
        ensures { StandsNow D.bytes D.images self.now }
    {
        let _ = &self.sure;
    }

    /// Makes room for at least `entries` entries with `bytes` bytes of payloads, so that appending
    /// them takes no memory.
    pub fn reserve(&mut self, entries: usize, bytes: usize) -> Result<(), OutOfMemory>
        ensures same { self.new ≡ record self.old {
          spare_entries = self.new.spare_entries;
          spare_bytes = self.new.spare_bytes;
        } }
        ensures ok { OnOk result ((entries ≤ self.new.spare_entries) × (bytes ≤ self.new.spare_bytes)) }
        ensures more { (self.old.spare_entries ≤ self.new.spare_entries)
            × (self.old.spare_bytes ≤ self.new.spare_bytes) }
        ensures enough { entries ≤ self.old.spare_entries → bytes ≤ self.old.spare_bytes → IsOk result }
        ensures err { OnErr result (self.new ≡ self.old) }
    {
        self.stored.reserve(entries, bytes)
    }

    /// Finds out whether the group in flight is kept. It does nothing where that is known.
    pub fn refresh(&mut self) -> Result<(), DiskFault>
        ensures ok { OnOk result (Refreshed D.bytes self.old self.new) }
        ensures err { OnErr result (Unrefreshed D.bytes self.old self.new) }
        ensures any_moment { LeavesOnly D.clock D.images_since self.old.disk self.new.disk
            (StandsForEither self.old.entries self.old.flight) }
        ensures within { StaysWithin D.clock D.images_since self.old self.new }
        ensures cause { HasCause (D.faults self.old.disk) (D.faults self.new.disk) result }
    {
        if self.sure {
            return Ok(());
        }
        if is_gate_open(&mut self.disk, self.stored.size() as u64)? {
            self.stored.keep();
            self.sure = true;
            return Ok(());
        }
        self.stored.forget();
        self.sure = true;
        Ok(())
    }

    /// Appends a group of 1 to `MAX_GROUP` entries, and answers the first new index. It begins with a
    /// `refresh`. `DiskFault` leaves the journal unsure: the next `refresh` that answers `Ok`
    /// decides whether the whole group is kept. `Full` and `OutOfMemory` leave the list as the
    /// refresh left it.
    pub fn append_group(&mut self, entries: &[Entry]) -> Result<u64, AppendError>
        requires { FitsGroup entries.now }
        ensures appends { Appends D.bytes D.clock D.images_since self.old self.new entries.now result }
        ensures room { UsesRoom self.old self.new entries.now result }
        ensures stands { StandsNow D.bytes D.images self.new }
        ensures within { StaysWithin D.clock D.images_since self.old self.new }
        ensures acknowledged { OnOk result ((c : List ℕ) → D.images self.new.disk c → Stands c self.new.entries) }
        ensures cause { HasCauseWhere (IsErrOf result AppendError.DiskFault) (D.faults self.old.disk)
            (D.faults self.new.disk) }
    {
        if self.refresh().is_err() {
            self.stands();
            return Err(AppendError::DiskFault);
        }
        let outcome = self.put_group(entries);
        self.stands();
        outcome
    }

    /// Appends one entry, as a group of one, and answers its index.
    pub fn append(&mut self, kind: u8, payload: &[u8]) -> Result<u64, AppendError>
        requires least { MIN_ENTRY_PAYLOAD ≤ length payload.now }
        requires most { length payload.now ≤ MAX_ENTRY_PAYLOAD }
        ensures appends { Appends D.bytes D.clock D.images_since self.old self.new
            ((record { kind = kind; payload = payload.now }) ∷ []) result }
        ensures room { UsesRoom self.old self.new ((record { kind = kind; payload = payload.now }) ∷ []) result }
        ensures stands { StandsNow D.bytes D.images self.new }
        ensures within { StaysWithin D.clock D.images_since self.old self.new }
        ensures acknowledged { OnOk result ((c : List ℕ) → D.images self.new.disk c → Stands c self.new.entries) }
        ensures cause { HasCauseWhere (IsErrOf result AppendError.DiskFault) (D.faults self.old.disk)
            (D.faults self.new.disk) }
    {
        if self.refresh().is_err() {
            self.stands();
            return Err(AppendError::DiskFault);
        }
        let outcome = self.put_entry(kind, payload);
        self.stands();
        outcome
    }

    /// The disk, as it is.
    pub fn into_disk(self) -> D
        ensures { result ≡ self.disk }
    {
        self.disk
    }

    /// Puts a group after the gate of a sure journal.
    fn put_group(&mut self, entries: &[Entry]) -> Result<u64, AppendError>
        requires sure { self.old.is_sure ≡ true }
        requires fits { FitsGroup entries.now }
        ensures puts { Puts D.clock D.images_since self.old self.new entries.now result }
        ensures within { StaysWithin D.clock D.images_since self.old self.new }
        ensures cause { HasCauseWhere (IsErrOf result AppendError.DiskFault) (D.faults self.old.disk)
            (D.faults self.new.disk) }
    {
        let size = entries_size(entries);
        let bytes = payloads_size(entries) as usize;
        let need = self.stored.size() as u64 + 8 + size;
        if need > self.limit {
            return Err(AppendError::Full {
                need,
                limit: self.limit,
            });
        }
        if self.stored.reserve(entries.len(), bytes).is_err() {
            return Err(AppendError::OutOfMemory);
        }
        self.stored.stage(entries, size as u32, bytes);
        settle(&mut self.disk, &mut self.stored, &mut self.sure)
    }

    /// The same for a group of one entry.
    fn put_entry(&mut self, kind: u8, payload: &[u8]) -> Result<u64, AppendError>
        requires sure { self.old.is_sure ≡ true }
        requires least { MIN_ENTRY_PAYLOAD ≤ length payload.now }
        requires most { length payload.now ≤ MAX_ENTRY_PAYLOAD }
        ensures puts { Puts D.clock D.images_since self.old self.new
            ((record { kind = kind; payload = payload.now }) ∷ []) result }
        ensures within { StaysWithin D.clock D.images_since self.old self.new }
        ensures cause { HasCauseWhere (IsErrOf result AppendError.DiskFault) (D.faults self.old.disk)
            (D.faults self.new.disk) }
    {
        let need = self.stored.size() as u64 + 13 + payload.len() as u64;
        if need > self.limit {
            return Err(AppendError::Full {
                need,
                limit: self.limit,
            });
        }
        if self.stored.reserve(1, payload.len()).is_err() {
            return Err(AppendError::OutOfMemory);
        }
        self.stored.stage_entry(kind, payload);
        settle(&mut self.disk, &mut self.stored, &mut self.sure)
    }
}

/// Puts the staged group on the disk, and takes it in where that answers `Ok`.
fn settle<D: Disk>(disk: &mut D, stored: &mut Stored, sure: &mut bool) -> Result<u64, AppendError>
    requires sure { sure.old ≡ true }
    requires keeps { Keeps (D.images disk.old) stored.old.entries [] true stored.old.size }
    requires staged { stored.old.staged ≡ staged_bytes stored.old.flight }
    requires fits { FitsGroup stored.old.flight }
    ensures any_moment { LeavesOnly D.clock D.images_since disk.old disk.new
        (StandsForEither stored.old.entries stored.old.flight) }
    ensures within { (limit : ℕ) → size_with stored.old.size stored.old.flight ≤ limit
        → ((c : List ℕ) → D.images disk.old c → IsAtMost limit c)
        → LeavesOnly D.clock D.images_since disk.old disk.new (IsAtMost limit) }
    ensures ok { IfOk result (λ first. Settles (D.images disk.new) stored.old stored.new first) }
    ensures ok_sure { OnOk result (sure.new ≡ true) }
    ensures err { IfErr result (λ e. e ≡ AppendError.DiskFault) }
    ensures err_same { OnErr result (stored.new ≡ stored.old) }
    ensures err_unsure { OnErr result (sure.new ≡ false) }
    ensures err_keeps { OnErr result (Keeps (D.images disk.new) stored.old.entries stored.old.flight false
        stored.old.size) }
    ensures cause { HasCause (D.faults disk.old) (D.faults disk.new) result }
{
    match put_staged(disk, stored) {
        Ok(()) => {
            let first = stored.count() as u64;
            stored.keep();
            Ok(first)
        }
        Err(_) => {
            *sure = false;
            Err(AppendError::DiskFault)
        }
    }
}
