//! Why no store was opened.
ghost use Rattle.std.specs.Prelude.{◌≡◌};
ghost use Rattle.ots_opening.specs.Opening.{error_of_journal, error_of_store};

use ots_disk::Disk;
use ots_journal::JournalError;
use ots_store::StoreError;

/// Why no store was opened on a disk.
#[derive(Clone, Copy, Debug, PartialEq, Eq)]
pub enum OpenError {
    /// A call of the disk failed, and the disk has counted the fault.
    DiskFault,
    /// The file has `need` bytes, more than the limit of a journal.
    Full { need: u64, limit: u64 },
    /// The file begins as a journal of version 1.
    OldVersion,
    /// The file begins as no journal.
    NotAJournal,
    /// After the open gate at this place stands no whole group.
    Damaged(u64),
    /// This entry of the journal is the first that spells no record, or none that may follow those
    /// before it.
    BadRecord(u64),
    /// Memory ran out.
    OutOfMemory,
}

impl From<JournalError> for OpenError {
    ghost from_gives = { λ why e. e ≡ error_of_journal why };

    fn from(why: JournalError) -> Self {
        match why {
            JournalError::DiskFault => OpenError::DiskFault,
            JournalError::Full { need, limit } => OpenError::Full { need, limit },
            JournalError::OldVersion => OpenError::OldVersion,
            JournalError::NotAJournal => OpenError::NotAJournal,
            JournalError::Damaged(place) => OpenError::Damaged(place),
            JournalError::OutOfMemory => OpenError::OutOfMemory,
        }
    }
}

impl From<StoreError> for OpenError {
    ghost from_gives = { λ why e. e ≡ error_of_store why };

    fn from(why: StoreError) -> Self {
        match why {
            StoreError::BadRecord(index) => OpenError::BadRecord(index),
            StoreError::OutOfMemory => OpenError::OutOfMemory,
        }
    }
}

/// A disk on which no store was opened, and why.
#[derive(Drop)]
pub struct Unopened<D: Disk> {
    pub disk: D,
    pub why: OpenError,
}
