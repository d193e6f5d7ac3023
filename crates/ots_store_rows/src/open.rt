// What a disk is opened as, or why it is not.
ghost use Rattle.std.specs.Prelude.{◌≤◌};

use ots_disk::Disk;
use ots_journal::{EMPTY_JOURNAL, Journal, JournalError, MAX_JOURNAL, Refused};
use ots_store::{RefusedStore, Store, StoreError};
use std::alloc::Global;

/// Why a disk was not opened.
#[derive(Clone, Copy)]
pub enum Why {
    Journal(JournalError),
    Store(StoreError),
}

/// A disk that was not opened.
#[derive(Drop)]
pub struct Unopened<D: Disk> {
    pub disk: D,
    pub why: Why,
}

/// A limit that a journal can have.
fn within(limit: u64) -> u64
    ensures least { EMPTY_JOURNAL ≤ result }
    ensures most { result ≤ MAX_JOURNAL }
{
    limit.max(EMPTY_JOURNAL).min(MAX_JOURNAL)
}

/// The journal on a disk.
pub fn open_journal<D: Disk>(
    alloc: Global,
    disk: D,
    limit: u64,
) -> Result<Journal<D>, Unopened<D>> {
    match Journal::open(alloc, disk, within(limit)) {
        Ok(journal) => Ok(journal),
        Err(Refused { disk, why }) => Err(Unopened {
            disk,
            why: Why::Journal(why),
        }),
    }
}

/// The store on a disk.
pub fn open_store<D: Disk>(alloc: Global, disk: D, limit: u64) -> Result<Store<D>, Unopened<D>> {
    match Journal::open(alloc, disk, within(limit)) {
        Ok(journal) => match Store::open(alloc, journal) {
            Ok(store) => Ok(store),
            Err(RefusedStore { disk, why }) => Err(Unopened {
                disk,
                why: Why::Store(why),
            }),
        },
        Err(Refused { disk, why }) => Err(Unopened {
            disk,
            why: Why::Journal(why),
        }),
    }
}
