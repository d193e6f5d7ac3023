//! Why a journal is not opened, and why entries are not appended.
ghost use Rattle.std.specs.Prelude.{◌≡◌};
ghost use Rattle.ots_journal.specs.declared.errors.JournalError.TheVariants as opening;
ghost use Rattle.ots_journal.specs.declared.errors.OldError.TheVariants as old;

use ots_base::OutOfMemory;
use ots_disk::Disk;
use ots_outside::Failed;
use thiserror::Error;

/// A call of the disk failed, and the disk has counted the fault.
#[derive(Clone, Copy, Debug, PartialEq, Eq)]
pub struct DiskFault;

impl From<Failed> for DiskFault {
    fn from(_: Failed) -> Self {
        DiskFault
    }
}

/// Why a group was not appended.
#[derive(Clone, Copy, Debug, PartialEq, Eq)]
pub enum AppendError {
    /// A call of the disk failed, and the disk has counted the fault.
    DiskFault,
    /// With the group the file would have `need` bytes, more than the limit.
    Full { need: u64, limit: u64 },
    /// Memory ran out.
    OutOfMemory,
}

/// Why a journal was not opened.
#[derive(Clone, Copy, Debug, PartialEq, Eq, Error)]
pub enum JournalError {
    /// A call of the disk failed, and the disk has counted the fault.
    #[error("a call of the disk failed")]
    DiskFault,
    /// The file has `need` bytes, more than the limit.
    #[error("the file has {need} bytes, over the limit of {limit}")]
    Full { need: u64, limit: u64 },
    /// The file begins as a journal of version 1.
    #[error("the file is a journal of version 1")]
    OldVersion,
    /// The file begins as no journal.
    #[error("the file is not a journal")]
    NotAJournal,
    /// After the open gate at this place stands no whole group.
    #[error("the group at byte {0} is damaged")]
    Damaged(u64),
    /// Memory ran out.
    #[error("memory ran out")]
    OutOfMemory,
}

impl From<Failed> for JournalError {
    ghost from_gives = { λ _ e. e ≡ opening.DiskFault };

    fn from(_: Failed) -> Self {
        JournalError::DiskFault
    }
}

impl From<OutOfMemory> for JournalError {
    ghost from_gives = { λ _ e. e ≡ opening.OutOfMemory };

    fn from(_: OutOfMemory) -> Self {
        JournalError::OutOfMemory
    }
}

/// Why bytes were not read as a journal of version 1.
#[derive(Clone, Copy, Debug, PartialEq, Eq)]
pub enum OldError {
    /// The bytes begin as no journal of version 1.
    NotAJournal,
    /// After the open gate at this place stands no whole entry.
    Damaged(u64),
    /// Memory ran out.
    OutOfMemory,
}

impl From<OutOfMemory> for OldError {
    ghost from_gives = { λ _ e. e ≡ old.OutOfMemory };

    fn from(_: OutOfMemory) -> Self {
        OldError::OutOfMemory
    }
}

/// A disk that was not opened as a journal, and why.
#[derive(Drop)]
pub struct Refused<D: Disk> {
    pub disk: D,
    pub why: JournalError,
}
