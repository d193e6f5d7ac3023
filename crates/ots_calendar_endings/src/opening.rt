//! Opening the journal.
ghost use Rattle.std.specs.Prelude.{◌≡◌, [], IfErr, IfOk};
ghost use Rattle.ots_store.specs.Order.{records_of};
ghost use Rattle.ots_opening.specs.Opening.{Closes, Opens, RefusesStore};
ghost use Rattle.ots_calendar_endings.specs.Found.{IsStatusOf, OpensBook, RefusesBook, open_status};

use ots_calendar::{Book, RefusedBook};
use ots_calendar_text::DaemonStatus;
use ots_disk::Disk;
use ots_opening::{OpenError, Unopened};
use ots_store::Store;
use std::alloc::Global;

/// A disk whose journal was not opened, and the status of that.
#[derive(Drop)]
pub struct Closed<D: Disk> {
    pub disk: D,
    pub why: DaemonStatus,
}

/// The book on a disk.
pub fn open_book<D: Disk>(alloc: Global, disk: D) -> Result<Book<D>, Closed<D>>
    ensures ok { IfOk result
        (λ b. OpensBook D.bytes D.faults D.clock D.images D.images_since disk b.store.journal) }
    ensures waiting { IfOk result (λ b. b.tickets.waiting ≡ []) }
    ensures settled { IfOk result (λ b. b.tickets.settled ≡ []) }
    ensures err { IfErr result (λ c. IsStatusOf
        (Closes D.bytes D.faults D.clock D.images D.images_since RefusesBook disk c.disk) c.why) }
{
    match open_store(alloc, disk) {
        Ok(store) => match Book::open(alloc, store) {
            Ok(book) => Ok(book),
            Err(RefusedBook { disk, why }) => Err(Closed {
                disk,
                why: open_status(OpenError::from(why)),
            }),
        },
        Err(closed) => Err(closed),
    }
}

/// The store on a disk.
pub fn open_store<D: Disk>(alloc: Global, disk: D) -> Result<Store<D>, Closed<D>>
    ensures records { IfOk result (λ s. s.records ≡ records_of s.journal.entries) }
    ensures ok { IfOk result
        (λ s. Opens D.bytes D.faults D.clock D.images D.images_since disk s.journal) }
    ensures err { IfErr result (λ c. IsStatusOf
        (Closes D.bytes D.faults D.clock D.images D.images_since RefusesStore disk c.disk) c.why) }
{
    match ots_opening::open_store(alloc, disk) {
        Ok(store) => Ok(store),
        Err(Unopened { disk, why }) => Err(Closed {
            disk,
            why: open_status(why),
        }),
    }
}

/// The status of a store or a book that was not opened.
fn open_status(why: OpenError) -> DaemonStatus
    ensures { result ≡ open_status why }
{
    match why {
        OpenError::DiskFault => DaemonStatus::DiskFault,
        OpenError::Full { need, limit } => DaemonStatus::Full { need, limit },
        OpenError::OldVersion => DaemonStatus::OldVersion,
        OpenError::NotAJournal => DaemonStatus::NotAJournal,
        OpenError::Damaged(place) => DaemonStatus::Damaged(place),
        OpenError::BadRecord(index) => DaemonStatus::BadRecord(index),
        OpenError::OutOfMemory => DaemonStatus::OutOfMemory,
    }
}
