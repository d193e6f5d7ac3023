ghost use Rattle.std.specs.Prelude.{◌≡◌, ◌≢◌, ◌≤◌, ◌<◌, ◌+◌, ◌^◌, ◌++◌, ◌∷◌, [], ℕ, List, length, true, false, find};
ghost use Rattle.std.specs.Prelude.{slice_get, Some, Err, IfOk, IfErr, IfSome, OnOk, OnErr, MatchOption, IsErrOf};
ghost use Rattle.std.specs.Option.{option_copied};
ghost use Rattle.std.specs.List.{AllByRecursion};
ghost use Rattle.ots_base.specs.Cause.{HasCause, HasCauseWhere};
ghost use Rattle.ots_disk.specs.Disk.{LeavesOnly};
ghost use Rattle.ots_journal.specs.Image.{Stands, FitsGroup};
ghost use Rattle.ots_journal.specs.Journal.{StandsForEither, Refreshed, Unrefreshed};
ghost use Rattle.ots_journal.specs.Within.{StaysWithin};
ghost use Rattle.ots_store.specs.Records.{Record, CommitRecord, TipRecord, AnchorRecord, entry_of, record_of};
ghost use Rattle.ots_store.specs.Records.{FitsLimits, IsRecord};
ghost use Rattle.ots_store.specs.Order.{commits_of, tips_of, anchors_of, covers, covered_of, Follows, AreRecords};
ghost use Rattle.ots_store.specs.Order.{FirstBad, records_of};
ghost use Rattle.ots_store.specs.Index.{least};
ghost use Rattle.ots_store.specs.Page.{page_of};
ghost use Rattle.ots_store.specs.Opening.{IfBad};
ghost use Rattle.ots_store.specs.Store.{InRecords, StandsForRecords, StoreStands, MakesRoom, Added, Adds, Settles};

use crate::form::{ANCHOR, COMMIT, Span, TIP, TIP_PAYLOAD};
use crate::held::Held;
use crate::opening::{first_bad, hold_records, stage_entries};
use crate::page::add_entries;
use crate::progress::Progress;
use crate::spelling::{fits_limits, spell_anchor, spell_tip};
use crate::tips::{has_tip, reaches_past};
use crate::{Anchor, RefusedStore, StoreError, Tip};
use ots_base::{MAX_REPLY_BODY, OutOfMemory};
use ots_disk::Disk;
use ots_journal::{AppendError, DiskFault, Entry, Journal};
use ots_outside::Bytes;
use std::alloc::Global;
use std::marker::Model;

/// The records of a calendar, on a journal.
#[derive(Drop)]
pub struct Store<D: Disk> {
    alloc: Global,
    journal: Journal<D>,
    held: Held,
}

impl<D: Disk> Model for Store<D> {
    ghost use Rattle.ots_store.specs.Store.{StoreTold, Keeps, spare_in};
    ghost use Rattle.ots_store.specs.Order.{records_of};

    ghost Value = { StoreTold D };

    ghost view = { λ s. record {
      journal = s.journal;
      records = records_of s.journal.entries;
      spare = spare_in s.journal s.held;
    } };

    ghost invariant = { λ s. Keeps s.journal s.held };
}

impl<D: Disk> Store<D> {
    /// Takes the entries of a sure journal as records. `BadRecord` names the first that spells no
    /// record, or none that may follow those before it.
    pub fn open(alloc: Global, journal: Journal<D>) -> Result<Store<D>, RefusedStore<D>>
        requires { journal.is_sure ≡ true }
        ensures journal { IfOk result (λ s. s.journal ≡ journal) }
        ensures records { IfOk result (λ s. s.records ≡ records_of journal.entries) }
        ensures are { OnOk result (InRecords journal.entries) }
        ensures bad { IfErr result (λ r. IfBad r.why (FirstBad [] journal.entries)) }
        ensures accepts { InRecords journal.entries → IfErr result (λ r. r.why ≡ StoreError.OutOfMemory) }
        ensures disk { IfErr result (λ r. r.disk ≡ journal.disk) }
    {
        match hold_records(alloc, &journal) {
            Ok(held) => Ok(Store {
                alloc,
                journal,
                held,
            }),
            Err(why) => Err(RefusedStore {
                disk: journal.into_disk(),
                why,
            }),
        }
    }

    /// What every store keeps. It does nothing.
    pub fn stands(&self)
        ensures { StoreStands D.bytes D.images self.now }
    {
        self.journal.stands();
        let _ = &self.held;
    }

    /// The number of commitments.
    pub fn commits(&self) -> u64
        ensures count { result ≡ length (commits_of self.now.records) }
        ensures bound { result < 2 ^ 32 }
    {
        // There are fewer than 2^32 entries, and no more commitments.
        let _ = self.journal.count();
        self.held.commitments().len() as u64
    }

    /// All commitments, in order.
    pub fn commitments(&self) -> &[[u8; 44]]
        ensures { result.now ≡ commits_of self.now.records }
    {
        self.held.commitments()
    }

    /// A commitment.
    pub fn commit(&self, i: u64) -> [u8; 44]
        requires { i < length (commits_of self.now.records) }
        ensures { slice_get (commits_of self.now.records) i ≡ Some result }
    {
        self.held.commitments()[i as usize]
    }

    /// How many of the commitments anchors cover.
    pub fn covered(&self) -> u64
        ensures { result ≡ covered_of self.now.records }
    {
        // No more commitments are covered than there are.
        let _ = self.journal.count();
        self.held.covered()
    }

    /// The least index of a commitment.
    pub fn index_of(&self, commitment: &[u8; 44]) -> Option<u64>
        ensures { result ≡ least commitment.now (commits_of self.now.records) }
    {
        self.held.index_of(commitment)
    }

    /// The first anchor that covers an index.
    pub fn anchor_of(&self, i: u64) -> Option<&Anchor>
        ensures { option_copied result ≡ find (covers i) (anchors_of self.now.records) }
    {
        self.held.anchor_of(i)
    }

    /// All tips, in order.
    pub fn tips(&self) -> &[Tip]
        ensures { result.now ≡ tips_of self.now.records }
    {
        self.held.tips()
    }

    /// The number of records.
    pub fn entries(&self) -> u64
        ensures count { result ≡ length self.now.records }
        ensures bound { result < 2 ^ 32 }
    {
        self.journal.count()
    }

    /// A record as its entry: its kind and its payload.
    pub fn entry(&self, i: u64) -> (u8, &[u8])
        requires { i < length self.now.records }
        ensures { slice_get self.now.journal.entries i ≡ Some (record { kind = result.0; payload = result.1.now }) }
    {
        self.journal.entry(i)
    }

    /// The page of the records from a number on: that number as 8 big-endian bytes, and as many of
    /// their entries as fit whole into `MAX_REPLY_BODY` bytes in all, 10,000, and at most
    /// [`MAX_PAGE_ENTRIES`](crate::MAX_PAGE_ENTRIES). `None` exactly where the number is over
    /// [`entries`](Store::entries). It looks at no other record.
    pub fn page(&self, from: u64) -> Result<Option<Bytes>, OutOfMemory>
        ensures page { IfOk result (λ page. page ≡ page_of self.now.records from) }
        ensures short { IfOk result (λ page. IfSome page (λ bytes. length bytes ≤ MAX_REPLY_BODY)) }
    {
        self.stands();
        if from > self.entries() {
            return Ok(None);
        }
        let mut page = Vec::with_capacity(self.alloc, MAX_REPLY_BODY)?;
        page.extend_from_slice(&from.to_be_bytes())?;
        add_entries(&mut page, self, from)?;
        Ok(Some(Bytes::from_vec(page)))
    }

    /// Whether it is known that nothing is in flight.
    pub fn is_sure(&self) -> bool
        ensures { result ≡ self.now.journal.is_sure }
    {
        self.journal.is_sure()
    }

    /// Whether a tip may follow the records.
    pub fn takes_tip(&self, tip: &Tip) -> bool
        ensures yes { result ≡ true → Follows self.now.records (TipRecord tip.now) }
        ensures no { result ≡ false → Follows self.now.records (TipRecord tip.now) → ⊥ }
    {
        let commits = self.commits();
        let covered = self.covered();
        tip.first == covered
            && tip.count >= 1
            && tip.first <= commits
            && tip.count == commits - tip.first
    }

    /// Whether an anchor is within the limits of its form and may follow the records.
    pub fn takes_anchor(&self, anchor: &Anchor) -> bool
        ensures fits { result ≡ true → FitsLimits anchor.now }
        ensures yes { result ≡ true → Follows self.now.records (AnchorRecord anchor.now) }
        ensures no { result ≡ false → FitsLimits anchor.now → Follows self.now.records (AnchorRecord anchor.now) → ⊥ }
    {
        let span = Span {
            first: anchor.first,
            count: anchor.count,
        };
        fits_limits(anchor)
            && has_tip(self.held.tips(), &span)
            && reaches_past(anchor.first, anchor.count, self.covered())
    }

    /// The place of the closed gate after the acknowledged entries.
    pub fn gate(&self) -> u64
        ensures { result ≡ self.now.journal.gate }
    {
        self.journal.gate()
    }

    /// How often the disk has failed.
    pub fn faults(&self) -> u64
        ensures { result ≡ D.faults self.now.journal.disk }
    {
        self.journal.faults()
    }

    /// The disk, as it is.
    pub fn into_disk(self) -> D
        ensures { result ≡ self.journal.disk }
    {
        self.journal.into_disk()
    }

    /// The first of these entries that spells no record, or none that may follow the records of
    /// the store and the entries before it.
    pub fn first_bad(&self, entries: &[Entry]) -> Option<u64>
        ensures { MatchOption result (AreRecords self.now.records entries.now) (FirstBad self.now.records entries.now) }
    {
        let before = Progress {
            commits: self.commits(),
            covered: self.covered(),
            group: 0,
        };
        first_bad(self.held.tips(), &before, entries)
    }

    /// Takes the memory for one commitment or one tip, which is then added without taking any, also
    /// after a `refresh`. It does not call the disk.
    pub fn reserve(&mut self) -> Result<(), OutOfMemory>
        ensures room { MakesRoom self.old.journal self.new.journal }
        ensures ok { OnOk result (0 < self.new.spare) }
        ensures records { self.new.records ≡ self.old.records }
    {
        self.held.reserve()?;
        self.journal.reserve(1, TIP_PAYLOAD)
    }

    /// Finds out whether the group in flight is kept. It does nothing where that is known, and takes
    /// no memory.
    pub fn refresh(&mut self) -> Result<(), DiskFault>
        ensures ok { OnOk result (Refreshed D.bytes self.old.journal self.new.journal) }
        ensures err { OnErr result (Unrefreshed D.bytes self.old.journal self.new.journal) }
        ensures any_moment { LeavesOnly D.clock D.images_since self.old.journal.disk self.new.journal.disk
            (StandsForEither self.old.journal.entries self.old.journal.flight) }
        ensures readable { LeavesOnly D.clock D.images_since self.old.journal.disk self.new.journal.disk
            StandsForRecords }
        ensures records { self.new.records ≡ records_of self.new.journal.entries }
        ensures spare { self.old.spare ≤ self.new.spare }
        ensures cause { HasCause (D.faults self.old.journal.disk) (D.faults self.new.journal.disk) result }
        ensures within { StaysWithin D.clock D.images_since self.old.journal self.new.journal }
    {
        let before = self.journal.count();
        self.journal.refresh()?;
        if self.journal.count() == before {
            self.held.forget();
        } else {
            self.held.keep();
        }
        Ok(())
    }

    /// Adds a commitment, and answers its index. It takes its memory, and then begins with a
    /// `refresh`. `DiskFault` leaves the commitment in flight, where that `refresh` answered `Ok`:
    /// the next one that does decides whether it is kept. `Full` leaves the records as the refresh
    /// left them. `OutOfMemory` comes only before the disk is called, and all is as before.
    pub fn add_commit(&mut self, commitment: &[u8; 44]) -> Result<u64, AppendError>
        ensures adds { Adds D.bytes D.clock D.images_since self.old.journal self.new.journal
            (entry_of (CommitRecord commitment.now) ∷ []) result }
        ensures untouched { result ≡ Err AppendError.OutOfMemory → self.new.journal.disk ≡ self.old.journal.disk }
        ensures records { self.new.records ≡ records_of self.new.journal.entries }
        ensures index { IfOk result (λ i. i + 1 ≡ length (commits_of self.new.records)) }
        ensures acknowledged { OnOk result ((c : List ℕ) → D.images self.new.journal.disk c
            → Stands c self.new.journal.entries) }
        ensures readable { LeavesOnly D.clock D.images_since self.old.journal.disk self.new.journal.disk
            StandsForRecords }
        ensures cause { HasCauseWhere (IsErrOf result AppendError.DiskFault) (D.faults self.old.journal.disk)
            (D.faults self.new.journal.disk) }
        ensures within { StaysWithin D.clock D.images_since self.old.journal self.new.journal }
    {
        self.stands();
        let Ok(()) = self.reserve() else {
            return Err(AppendError::OutOfMemory);
        };
        match self.refresh() {
            Ok(()) => {
                let index = self.commits();
                match self.add(COMMIT, commitment.as_slice()) {
                    Ok(()) => Ok(index),
                    Err(why) => Err(why),
                }
            }
            Err(_) => Err(AppendError::DiskFault),
        }
    }

    /// Adds a tip to a sure store, after whose records it may follow. The refusals are those of
    /// `add_commit`, which leave the same. It takes memory only where none is spare.
    pub fn add_tip(&mut self, tip: &Tip) -> Result<(), AppendError>
        requires sure { self.old.journal.is_sure ≡ true }
        requires follows { Follows self.old.records (TipRecord tip.now) }
        ensures added { Added D.clock D.images_since self.old.journal self.new.journal
            (entry_of (TipRecord tip.now) ∷ []) result }
        ensures not_refused { 0 < self.old.spare → result ≡ Err AppendError.OutOfMemory → ⊥ }
        ensures records { self.new.records ≡ records_of self.new.journal.entries }
        ensures acknowledged { OnOk result ((c : List ℕ) → D.images self.new.journal.disk c
            → Stands c self.new.journal.entries) }
        ensures readable { LeavesOnly D.clock D.images_since self.old.journal.disk self.new.journal.disk
            StandsForRecords }
        ensures cause { HasCauseWhere (IsErrOf result AppendError.DiskFault) (D.faults self.old.journal.disk)
            (D.faults self.new.journal.disk) }
        ensures within { StaysWithin D.clock D.images_since self.old.journal self.new.journal }
    {
        let payload = spell_tip(tip);
        self.add(TIP, &payload)
    }

    /// Adds an anchor to a sure store, after whose records it may follow. The refusals are those of
    /// `add_commit`, which leave the same.
    pub fn add_anchor(&mut self, anchor: &Anchor) -> Result<(), AppendError>
        requires sure { self.old.journal.is_sure ≡ true }
        requires fits { FitsLimits anchor.now }
        requires follows { Follows self.old.records (AnchorRecord anchor.now) }
        ensures added { Added D.clock D.images_since self.old.journal self.new.journal
            (entry_of (AnchorRecord anchor.now) ∷ []) result }
        ensures records { self.new.records ≡ records_of self.new.journal.entries }
        ensures acknowledged { OnOk result ((c : List ℕ) → D.images self.new.journal.disk c
            → Stands c self.new.journal.entries) }
        ensures readable { LeavesOnly D.clock D.images_since self.old.journal.disk self.new.journal.disk
            StandsForRecords }
        ensures cause { HasCauseWhere (IsErrOf result AppendError.DiskFault) (D.faults self.old.journal.disk)
            (D.faults self.new.journal.disk) }
        ensures within { StaysWithin D.clock D.images_since self.old.journal self.new.journal }
    {
        match spell_anchor(self.alloc, anchor) {
            Ok(payload) => self.add(ANCHOR, &payload),
            Err(_) => self.no_memory(),
        }
    }

    /// Adds a group of entries to a sure store, of which `first_bad` finds none. The refusals are
    /// those of `add_commit`, which leave the same, for the whole group.
    pub fn add_group(&mut self, entries: &[Entry]) -> Result<(), AppendError>
        requires sure { self.old.journal.is_sure ≡ true }
        requires fits { FitsGroup entries.now }
        requires follow { AreRecords self.old.records entries.now }
        ensures added { Added D.clock D.images_since self.old.journal self.new.journal entries.now result }
        ensures untouched { result ≡ Err AppendError.OutOfMemory → self.new.journal.disk ≡ self.old.journal.disk }
        ensures records { self.new.records ≡ records_of self.new.journal.entries }
        ensures acknowledged { OnOk result ((c : List ℕ) → D.images self.new.journal.disk c
            → Stands c self.new.journal.entries) }
        ensures readable { LeavesOnly D.clock D.images_since self.old.journal.disk self.new.journal.disk
            StandsForRecords }
        ensures cause { HasCauseWhere (IsErrOf result AppendError.DiskFault) (D.faults self.old.journal.disk)
            (D.faults self.new.journal.disk) }
        ensures within { StaysWithin D.clock D.images_since self.old.journal self.new.journal }
    {
        match stage_entries(&mut self.held, entries) {
            Ok(()) => {
                let outcome = self.journal.append_group(entries);
                let _ = self.journal.count();
                settle(&mut self.held, outcome)
            }
            Err(_) => {
                self.held.forget();
                self.no_memory()
            }
        }
    }

    /// Adds a record to a sure store, after whose records it may follow. A commitment and a tip take
    /// memory only where none is spare.
    fn add(&mut self, kind: u8, payload: &[u8]) -> Result<(), AppendError>
        requires sure { self.old.journal.is_sure ≡ true }
        requires is { IsRecord (record { kind = kind; payload = payload.now }) }
        requires follows { Follows self.old.records (record_of (record { kind = kind; payload = payload.now })) }
        ensures added { Added D.clock D.images_since self.old.journal self.new.journal
            ((record { kind = kind; payload = payload.now }) ∷ []) result }
        ensures not_refused { 0 < self.old.spare → kind ≢ 3 → length payload.now ≤ 48
            → result ≡ Err AppendError.OutOfMemory → ⊥ }
        ensures records { self.new.records ≡ records_of self.new.journal.entries }
        ensures acknowledged { OnOk result ((c : List ℕ) → D.images self.new.journal.disk c
            → Stands c self.new.journal.entries) }
        ensures readable { LeavesOnly D.clock D.images_since self.old.journal.disk self.new.journal.disk
            StandsForRecords }
        ensures cause { HasCauseWhere (IsErrOf result AppendError.DiskFault) (D.faults self.old.journal.disk)
            (D.faults self.new.journal.disk) }
        ensures within { StaysWithin D.clock D.images_since self.old.journal self.new.journal }
    {
        match self.held.stage(kind, payload) {
            Ok(()) => {
                let outcome = self.journal.append(kind, payload);
                let _ = self.journal.count();
                settle(&mut self.held, outcome)
            }
            Err(_) => self.no_memory(),
        }
    }

    /// Answers that memory ran out before the disk was called.
    fn no_memory(&mut self) -> Result<(), AppendError>
        requires { self.old.journal.is_sure ≡ true }
        ensures same { self.new ≡ self.old }
        ensures err { result ≡ Err AppendError.OutOfMemory }
        ensures any_moment { LeavesOnly D.clock D.images_since self.old.journal.disk self.new.journal.disk
            (λ c. Stands c self.old.journal.entries) }
        ensures within { StaysWithin D.clock D.images_since self.old.journal self.new.journal }
    {
        self.journal.stands();
        Err(AppendError::OutOfMemory)
    }
}

/// What an append leaves in memory, by its answer.
fn settle(held: &mut Held, outcome: Result<u64, AppendError>) -> Result<(), AppendError>
    requires few { OnOk outcome (length (held.old.commitments.kept ++ held.old.commitments.flight) ≤ 2 ^ 32) }
    ensures { Settles outcome result held.old held.new }
{
    match outcome {
        Ok(_) => {
            held.keep();
            Ok(())
        }
        Err(AppendError::DiskFault) => Err(AppendError::DiskFault),
        Err(AppendError::Full { need, limit }) => {
            held.forget();
            Err(AppendError::Full { need, limit })
        }
        Err(AppendError::OutOfMemory) => {
            held.forget();
            Err(AppendError::OutOfMemory)
        }
    }
}
