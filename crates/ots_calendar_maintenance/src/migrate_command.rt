//! The command `migrate`.
ghost use Rattle.std.specs.Prelude.{◌≡◌, ◌⊎◌, ◌≤◌, Some, true, false, slice_get, MatchOption};
ghost use Rattle.std.specs.List.{AllByRecursion};
ghost use Rattle.ots_base.specs.Cause.{Rose};
ghost use Rattle.ots_disk.specs.Disk.{LeavesOnly};
ghost use Rattle.ots_journal.specs.Opening.{OpenedFrom};
ghost use Rattle.ots_journal.specs.Image.{FitsEntry};
ghost use Rattle.ots_store.specs.Order.{AreRecords};
ghost use Rattle.ots_calendar_maintenance.specs.Carrying.{CarriesOver, Carries, IsPrefix, migrate_status};
ghost use Rattle.ots_calendar_endings.specs.Ran.{EndsAs, Ran};
ghost use Rattle.ots_calendar_maintenance.specs.Migrate.{AddsPrefix, FirstOther, HasOld};
ghost use Rattle.ots_calendar_maintenance.specs.Migrate.{MigrateAnswers, migrate_meaning};
ghost use Rattle.ots_calendar_endings.specs.Moments.{EachStands, KeepsFound, OpenedOrRan, StandsWith};
ghost use Rattle.ots_calendar_endings.specs.With.{WithStore};
ghost use Rattle.ots_journal.specs.declared.limits.TheConstants.{MAX_JOURNAL};
ghost use Rattle.ots_outputs.specs.Printed.{SinkStays};

use ots_calendar_endings::{DaemonStatus, Outside, Text, open_store, print, refuse, refuse_input};
use ots_calendar_inputs::read_old;
use ots_disk::Disk;
use ots_journal::{AppendError, Entry, MAX_GROUP};
use ots_outside::{Shelf, Sink};
use ots_store::Store;
use std::alloc::Global;

/// Why a journal of version 1 was not carried over.
#[derive(Clone, Copy, Debug, PartialEq, Eq)]
enum MigrateError {
    /// The least index at which the journal has an entry that the old one lacks or has otherwise.
    NotPrefix(u64),
    /// The first entry of the old journal that is no record, or may not stand where it stands.
    BadRecord(u64),
    /// A group is not stored.
    NotStored(AppendError),
}

impl MigrateError {
    /// The status of it.
    fn status(self) -> DaemonStatus
        ensures { result ≡ migrate_status self }
    {
        match self {
            MigrateError::NotPrefix(index) => DaemonStatus::NotPrefix(index),
            MigrateError::BadRecord(index) => DaemonStatus::BadRecord(index),
            MigrateError::NotStored(AppendError::DiskFault) => DaemonStatus::DiskFault,
            MigrateError::NotStored(AppendError::Full { need, limit }) => {
                DaemonStatus::Full { need, limit }
            }
            MigrateError::NotStored(AppendError::OutOfMemory) => DaemonStatus::OutOfMemory,
        }
    }
}

/// Reads a journal of version 1, opens the store on a disk, and carries over what the store lacks.
pub fn migrate<D: Disk, S: Shelf, K: Sink>(
    alloc: Global,
    name: &str,
    disk: D,
    shelf: &mut S,
    out: &mut K,
) -> (DaemonStatus, D)
    ensures ran { Ran (migrate_meaning name.now)
        (⟦<(D, S, K) as Outside>⟧.told (disk, shelf.old, out.old))
        (⟦<(D, S, K) as Outside>⟧.told (result.1, shelf.new, out.new)) result.0 }
    ensures untouched { (result.1 ≡ disk) ⊎ HasOld (S.told shelf.old).names name.now }
    ensures same { K.same out.old out.new }
{
    match read_old(alloc, name, shelf) {
        Ok(old) => migrate_to(alloc, &old, disk, out),
        Err(stop) => {
            let status = refuse_input(stop, out);
            (status, disk)
        }
    }
}

/// Opens the store on a disk, and carries the entries of an old journal over into it.
fn migrate_to<D: Disk, K: Sink>(
    alloc: Global,
    old: &[Entry],
    disk: D,
    out: &mut K,
) -> (DaemonStatus, D)
    requires { AllByRecursion FitsEntry old.now }
    ensures ends { EndsAs (WithStore (D.bytes disk) (MigrateAnswers MAX_JOURNAL old.now))
        (⟦<(D, K) as Outside>⟧.told (disk, out.old))
        (⟦<(D, K) as Outside>⟧.told (result.1, out.new)) result.0 }
    ensures moments { LeavesOnly D.clock D.images_since disk result.1
        (OpenedOrRan (D.bytes disk) (D.images disk) (AddsPrefix old.now)) }
    ensures kept { KeepsFound (D.bytes disk) (D.images result.1) ⊎ LeavesOnly D.clock D.images_since
        disk result.1 (OpenedFrom (D.images disk)) }
    ensures later { D.faults disk ≤ D.faults result.1 }
    ensures sink { SinkStays K.faults K.same out.old out.new }
{
    match open_store(alloc, disk) {
        Ok(store) => {
            let mut store = store;
            let status = carry(old, &mut store, out);
            (status, store.into_disk())
        }
        Err(closed) => {
            let status = refuse("", closed.why, out);
            (status, closed.disk)
        }
    }
}

/// Carries the entries of an old journal over into a sure store that has a prefix of them, and prints
/// how many they are.
fn carry<D: Disk, K: Sink>(old: &[Entry], store: &mut Store<D>, out: &mut K) -> DaemonStatus
    requires fit { AllByRecursion FitsEntry old.now }
    requires sure { store.old.journal.is_sure ≡ true }
    requires stands { EachStands (D.images store.old.journal.disk) store.old.journal.entries }
    ensures ends { EndsAs (MigrateAnswers store.old.journal.limit old.now store.old.journal.gate
        store.old.journal.entries) (⟦<(D, K) as Outside>⟧.told (store.old.journal.disk, out.old))
        (⟦<(D, K) as Outside>⟧.told (store.new.journal.disk, out.new)) result }
    ensures moments { LeavesOnly D.clock D.images_since store.old.journal.disk
        store.new.journal.disk
        (StandsWith (AddsPrefix old.now store.old.journal.entries) store.old.journal.entries) }
    ensures later { D.faults store.old.journal.disk ≤ D.faults store.new.journal.disk }
    ensures sink { SinkStays K.faults K.same out.old out.new }
{
    match carry_over(old, store) {
        Ok(()) => print(&Text::Migrated(old.len() as u64), DaemonStatus::Done, out),
        Err(error) => refuse("", error.status(), out),
    }
}

/// Adds what the store lacks of an old journal.
fn carry_over<D: Disk>(old: &[Entry], store: &mut Store<D>) -> Result<(), MigrateError>
    requires fit { AllByRecursion FitsEntry old.now }
    requires sure { store.old.journal.is_sure ≡ true }
    requires stands { EachStands (D.images store.old.journal.disk) store.old.journal.entries }
    ensures carries { Carries D.clock D.images D.images_since
        (Rose (D.faults store.old.journal.disk) (D.faults store.new.journal.disk)) old.now
        store.old.journal store.new.journal result }
    ensures later { D.faults store.old.journal.disk ≤ D.faults store.new.journal.disk }
{
    store.stands();
    if let Some(index) = first_other(old, store) {
        return Err(MigrateError::NotPrefix(index));
    }
    let held = store.entries();
    let rest = &old[held as usize..];
    if let Some(index) = store.first_bad(rest) {
        return Err(MigrateError::BadRecord(held + index));
    }
    match add_groups(rest, store) {
        Ok(()) => Ok(()),
        Err(why) => Err(MigrateError::NotStored(why)),
    }
}

/// The first entry of a store that an old journal lacks or has otherwise.
fn first_other<D: Disk>(old: &[Entry], store: &Store<D>) -> Option<u64>
    ensures { MatchOption result (IsPrefix store.now.journal.entries old.now)
        (FirstOther store.now.journal.entries old.now) }
{
    store.stands();
    for i in 0..store.entries() {
        let (kind, payload) = store.entry(i);
        if !has_entry(old, i as usize, kind, payload) {
            return Some(i);
        }
    }
    None
}

/// Whether an old journal has this entry at an index.
fn has_entry(old: &[Entry], i: usize, kind: u8, payload: &[u8]) -> bool
    ensures yes { result ≡ true → slice_get old.now i ≡ Some
        (record { kind = kind; payload = payload.now }) }
    ensures no { result ≡ false → slice_get old.now i ≡ Some
        (record { kind = kind; payload = payload.now }) → ⊥ }
{
    i < old.len() && is_entry(&old[i], kind, payload)
}

/// Whether an entry is this one.
fn is_entry(entry: &Entry, kind: u8, payload: &[u8]) -> bool
    ensures yes { result ≡ true → entry.now ≡ record { kind = kind; payload = payload.now } }
    ensures no { result ≡ false → entry.now ≡ record { kind = kind; payload = payload.now } → ⊥ }
{
    entry.kind == kind && entry.payload.items() == payload
}

/// Adds entries to a sure store, of which `first_bad` finds none, in groups as large as may be.
fn add_groups<D: Disk>(rest: &[Entry], store: &mut Store<D>) -> Result<(), AppendError>
    requires fit { AllByRecursion FitsEntry rest.now }
    requires records { AreRecords store.old.records rest.now }
    requires sure { store.old.journal.is_sure ≡ true }
    requires stands { EachStands (D.images store.old.journal.disk) store.old.journal.entries }
    ensures carries { CarriesOver D.clock D.images D.images_since
        (Rose (D.faults store.old.journal.disk) (D.faults store.new.journal.disk)) rest.now
        store.old.journal store.new.journal result }
    ensures later { D.faults store.old.journal.disk ≤ D.faults store.new.journal.disk }
{
    store.stands();
    let mut done = 0;
    while done < rest.len() {
        let end = rest.len().min(done + MAX_GROUP);
        store.add_group(&rest[done..end])?;
        done = end;
    }
    Ok(())
}
