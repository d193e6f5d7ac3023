//! The top call.
ghost use Rattle.std.specs.Prelude.{◌≡◌, ◌≤◌, ◌⊎◌, ℕ, List, Some, true};
ghost use Rattle.ots_base.specs.Cause.{Rose};
ghost use Rattle.ots_disk.specs.Disk.{LeavesOnly};
ghost use Rattle.ots_journal.specs.declared.entry.Entry.{Entry};
ghost use Rattle.ots_journal.specs.declared.limits.TheConstants.{MAX_JOURNAL};
ghost use Rattle.ots_journal.specs.Image.{Stands};
ghost use Rattle.ots_mirror_words.specs.Words.{asked, read_as};
ghost use Rattle.ots_opening.specs.Images.{IsOnlyImage, StandsAfter};
ghost use Rattle.ots_outputs.specs.Printed.{PrintsLastOr, SinkStays};
ghost use Rattle.ots_store.specs.Order.{records_of};
ghost use Rattle.ots_store.specs.Records.{Record};
ghost use Rattle.ots_mirror.specs.Honest.{HonestOwner, StandsAlong};
ghost use Rattle.ots_mirror.specs.Printed.{end_text};
ghost use Rattle.ots_mirror.specs.Rounds.{held_in};
ghost use Rattle.ots_mirror.specs.Run.{Ends, NamesOne, OverAsked, OverDisk, OverWords, RoundsOver};
ghost use Rattle.ots_mirror.specs.Run.{address_status, open_status};
ghost use Rattle.ots_mirror_words.specs.declared.status.MirrorStatus.TheVariants.{WriteFault};

use crate::printing::print_end;
use crate::rounds::make_rounds;
use ots_address::{Address, AddressError, read_address};
use ots_disk::Disk;
use ots_mirror_words::{MirrorStatus, Mirroring, WordsError, read_words};
use ots_opening::{OpenError, Unopened, open_store};
use ots_outside::{Dialer, Sink};
use ots_store::Store;
use std::alloc::Global;

/// Does what the words after the program's name ask for, prints on the sink, and answers how it ended.
/// [`MirrorStatus`] says when each status comes; where several of them could, the first in this order
/// does: the words, the address, the journal, the rounds.
///
/// The first word names the journal, which is the disk that is handed in. A line is printed for each
/// round, and then how many records the journal has, or the line of the refusal; want of memory and
/// a sink that failed have none. What the journal holds is never written over: whatever the calendar
/// answers, a crash at any moment leaves entries that begin with those found.
pub fn run_mirror<D: Disk, K: Sink, T: Dialer>(
    alloc: Global,
    words: &[String],
    disk: D,
    out: &mut K,
    dialer: &mut T,
) -> (MirrorStatus, D)
    ensures ends { Ends (OverWords T.told T.faults (D.bytes disk) (Rose (D.faults disk) (D.faults result.1))
        (Rose (K.faults out.old) (K.faults out.new)) (asked words.now) dialer.old dialer.new) (D.images result.1)
        (Rose (K.faults out.old) (K.faults out.new)) (K.taken out.old) (K.taken out.new) result.0 }
    ensures keeps { (found : List Entry) → IsOnlyImage (D.bytes disk) (D.images disk) found
        → LeavesOnly D.clock D.images_since disk result.1 (StandsAfter found) }
    ensures crash { (found : List Entry) → IsOnlyImage (D.bytes disk) (D.images disk) found → (all : List Record)
        → HonestOwner all (records_of found) (T.told dialer.old)
        → LeavesOnly D.clock D.images_since disk result.1 (StandsAlong found all) }
    ensures untouched { (result.1 ≡ disk) ⊎ NamesOne (asked words.now) }
    ensures later { D.faults disk ≤ D.faults result.1 }
    ensures sink { SinkStays K.faults K.same out.old out.new }
{
    match read_words(alloc, words) {
        Ok(asked) => mirror_asked(alloc, asked, disk, out, dialer),
        Err(WordsError::Usage) => refuse(MirrorStatus::Usage, disk, out),
        Err(WordsError::OutOfMemory) => refuse(MirrorStatus::OutOfMemory, disk, out),
    }
}

/// Reads the address, and makes rounds over the journal.
fn mirror_asked<D: Disk, K: Sink, T: Dialer>(
    alloc: Global,
    asked: Mirroring<'_>,
    disk: D,
    out: &mut K,
    dialer: &mut T,
) -> (MirrorStatus, D)
    ensures ends { Ends (OverAsked T.told T.faults (D.bytes disk) (Rose (D.faults disk) (D.faults result.1))
        (Rose (K.faults out.old) (K.faults out.new)) (read_as asked.entry) dialer.old dialer.new) (D.images result.1)
        (Rose (K.faults out.old) (K.faults out.new)) (K.taken out.old) (K.taken out.new) result.0 }
    ensures keeps { (found : List Entry) → IsOnlyImage (D.bytes disk) (D.images disk) found
        → LeavesOnly D.clock D.images_since disk result.1 (StandsAfter found) }
    ensures crash { (found : List Entry) → IsOnlyImage (D.bytes disk) (D.images disk) found → (all : List Record)
        → HonestOwner all (records_of found) (T.told dialer.old)
        → LeavesOnly D.clock D.images_since disk result.1 (StandsAlong found all) }
    ensures untouched { (result.1 ≡ disk) ⊎ NamesOne (Some (read_as asked.entry)) }
    ensures later { D.faults disk ≤ D.faults result.1 }
    ensures sink { SinkStays K.faults K.same out.old out.new }
{
    match read_address(alloc, asked.address) {
        Ok(address) => mirror_disk(alloc, &address, asked.rounds, disk, out, dialer),
        Err(error) => refuse(address_status(error), disk, out),
    }
}

/// Opens the store on a disk, and makes rounds over it.
fn mirror_disk<D: Disk, K: Sink, T: Dialer>(
    alloc: Global,
    address: &Address,
    rounds: u64,
    disk: D,
    out: &mut K,
    dialer: &mut T,
) -> (MirrorStatus, D)
    ensures ends { Ends (OverDisk T.told T.faults address.now (D.bytes disk) (Rose (D.faults disk) (D.faults result.1))
        (Rose (K.faults out.old) (K.faults out.new)) rounds dialer.old dialer.new) (D.images result.1)
        (Rose (K.faults out.old) (K.faults out.new)) (K.taken out.old) (K.taken out.new) result.0 }
    ensures keeps { (found : List Entry) → IsOnlyImage (D.bytes disk) (D.images disk) found
        → LeavesOnly D.clock D.images_since disk result.1 (StandsAfter found) }
    ensures crash { (found : List Entry) → IsOnlyImage (D.bytes disk) (D.images disk) found → (all : List Record)
        → HonestOwner all (records_of found) (T.told dialer.old)
        → LeavesOnly D.clock D.images_since disk result.1 (StandsAlong found all) }
    ensures later { D.faults disk ≤ D.faults result.1 }
    ensures sink { SinkStays K.faults K.same out.old out.new }
{
    match open_store(alloc, disk) {
        Ok(store) => mirror_store(alloc, address, rounds, store, out, dialer),
        Err(Unopened { disk, why }) => refuse(open_status(why), disk, out),
    }
}

/// Makes rounds over a sure store, and prints how they ended.
fn mirror_store<D: Disk, K: Sink, T: Dialer>(
    alloc: Global,
    address: &Address,
    rounds: u64,
    store: Store<D>,
    out: &mut K,
    dialer: &mut T,
) -> (MirrorStatus, D)
    requires known { store.records ≡ records_of store.journal.entries }
    requires sure { store.journal.is_sure ≡ true }
    requires limit { store.journal.limit ≡ MAX_JOURNAL }
    requires stands { (c : List ℕ) → D.images store.journal.disk c → Stands c store.journal.entries }
    ensures ends { Ends (RoundsOver T.told T.faults address.now
        (Rose (D.faults store.journal.disk) (D.faults result.1)) (Rose (K.faults out.old) (K.faults out.new)) rounds
        (held_in store.journal) dialer.old dialer.new) (D.images result.1)
        (Rose (K.faults out.old) (K.faults out.new)) (K.taken out.old) (K.taken out.new) result.0 }
    ensures keeps { LeavesOnly D.clock D.images_since store.journal.disk result.1
        (StandsAfter store.journal.entries) }
    ensures moments { (all : List Record) → HonestOwner all store.records (T.told dialer.old)
        → LeavesOnly D.clock D.images_since store.journal.disk result.1 (StandsAlong store.journal.entries all) }
    ensures later { D.faults store.journal.disk ≤ D.faults result.1 }
    ensures sink { SinkStays K.faults K.same out.old out.new }
{
    let mut store = store;
    let status = make_rounds(alloc, address, rounds, &mut store, out, dialer);
    let status = print_end(status, store.entries(), out);
    (status, store.into_disk())
}

/// Prints the line of a refusal before the first round, and hands the disk back.
fn refuse<D: Disk, K: Sink>(status: MirrorStatus, disk: D, out: &mut K) -> (MirrorStatus, D)
    ensures disk { result.1 ≡ disk }
    ensures printed { PrintsLastOr WriteFault (Rose (K.faults out.old) (K.faults out.new)) status (end_text status 0)
        (K.taken out.old) (K.taken out.new) result.0 }
    ensures sink { SinkStays K.faults K.same out.old out.new }
{
    let status = print_end(status, 0, out);
    (status, disk)
}

/// The status of a word that is not one address.
fn address_status(error: AddressError) -> MirrorStatus
    ensures { result ≡ address_status error }
{
    match error {
        AddressError::BadAddress { place, https } => MirrorStatus::BadAddress {
            place: place as u64,
            https,
        },
        AddressError::OutOfMemory => MirrorStatus::OutOfMemory,
    }
}

/// The status of a store that was not opened.
fn open_status(why: OpenError) -> MirrorStatus
    ensures { result ≡ open_status why }
{
    match why {
        OpenError::DiskFault => MirrorStatus::DiskFault,
        OpenError::Full { need, limit } => MirrorStatus::Full { need, limit },
        OpenError::OldVersion => MirrorStatus::OldVersion,
        OpenError::NotAJournal => MirrorStatus::NotAJournal,
        OpenError::Damaged(place) => MirrorStatus::Damaged(place),
        OpenError::BadRecord(index) => MirrorStatus::BadRecord(index),
        OpenError::OutOfMemory => MirrorStatus::OutOfMemory,
    }
}
