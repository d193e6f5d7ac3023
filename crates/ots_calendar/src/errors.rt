ghost use Rattle.std.specs.Prelude.{◌≡◌};
ghost use Rattle.ots_calendar.specs.declared.errors.TipError.TheVariants as tip;
ghost use Rattle.ots_calendar.specs.Tips.{tip_error};
ghost use Rattle.ots_calendar.specs.declared.errors.AnchorError.TheVariants as anchor;
ghost use Rattle.ots_calendar.specs.Anchors.{anchor_error, find_error};

use ots_anchor::FindError;
use ots_base::OutOfMemory;
use ots_disk::Disk;
use ots_journal::{AppendError, DiskFault};
use ots_store::StoreError;

/// A disk whose store was not opened as a book, and why.
#[derive(Drop)]
pub struct RefusedBook<D: Disk> {
    pub disk: D,
    pub why: StoreError,
}

/// Why no tip was given.
#[derive(Clone, Copy, Debug, PartialEq, Eq)]
pub enum TipError {
    /// Every commitment is covered.
    NothingNew,
    /// A call of the disk failed, and the disk has counted the fault.
    DiskFault,
    /// With the tip the file would have `need` bytes, more than the limit.
    Full { need: u64, limit: u64 },
    /// Memory ran out.
    OutOfMemory,
}

impl From<OutOfMemory> for TipError {
    ghost from_gives = { λ _ e. e ≡ tip.OutOfMemory };

    fn from(_: OutOfMemory) -> Self {
        TipError::OutOfMemory
    }
}

impl From<DiskFault> for TipError {
    ghost from_gives = { λ _ e. e ≡ tip.DiskFault };

    fn from(_: DiskFault) -> Self {
        TipError::DiskFault
    }
}

impl From<AppendError> for TipError {
    ghost from_gives = { λ why e. e ≡ tip_error why };

    fn from(why: AppendError) -> Self {
        match why {
            AppendError::DiskFault => TipError::DiskFault,
            AppendError::Full { need, limit } => TipError::Full { need, limit },
            AppendError::OutOfMemory => TipError::OutOfMemory,
        }
    }
}

/// Why no tip was anchored.
#[derive(Clone, Copy, Debug, PartialEq, Eq)]
pub enum AnchorError {
    /// The block's header has this root, and over its transactions it is another one.
    BadRoot {
        header: [u8; 32],
        computed: [u8; 32],
    },
    /// No transaction without its witness has the root of a tip in it that reaches past what is
    /// covered.
    NoTip,
    /// Only transactions that have more than `MAX_MESSAGE` bytes without their witness have one in them. The
    /// number is the length of the first of them.
    TransactionTooLong(u64),
    /// A call of the disk failed, and the disk has counted the fault.
    DiskFault,
    /// With the anchor the file would have `need` bytes, more than the limit.
    Full {
        need: u64,
        limit: u64,
    },
    /// Memory ran out.
    OutOfMemory,
}

impl From<OutOfMemory> for AnchorError {
    ghost from_gives = { λ _ e. e ≡ anchor.OutOfMemory };

    fn from(_: OutOfMemory) -> Self {
        AnchorError::OutOfMemory
    }
}

impl From<DiskFault> for AnchorError {
    ghost from_gives = { λ _ e. e ≡ anchor.DiskFault };

    fn from(_: DiskFault) -> Self {
        AnchorError::DiskFault
    }
}

impl From<FindError> for AnchorError {
    ghost from_gives = { λ why e. e ≡ find_error why };

    fn from(why: FindError) -> Self {
        match why {
            FindError::NoTip => AnchorError::NoTip,
            FindError::TransactionTooLong(bytes) => AnchorError::TransactionTooLong(bytes),
            FindError::OutOfMemory => AnchorError::OutOfMemory,
        }
    }
}

impl From<AppendError> for AnchorError {
    ghost from_gives = { λ why e. e ≡ anchor_error why };

    fn from(why: AppendError) -> Self {
        match why {
            AppendError::DiskFault => AnchorError::DiskFault,
            AppendError::Full { need, limit } => AnchorError::Full { need, limit },
            AppendError::OutOfMemory => AnchorError::OutOfMemory,
        }
    }
}
