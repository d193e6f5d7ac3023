//! What is wrong with bytes that are no block, and where.
ghost use Rattle.std.specs.Prelude.{◌≡◌};
ghost use Rattle.ots_block.specs.declared.fault.BlockError.TheVariants.{OutOfMemory};

use ots_base::OutOfMemory;
use std::alloc::{AllocError, AllocFailed};

/// Why bytes are no block.
#[derive(Clone, Copy, Debug, PartialEq, Eq)]
pub enum BlockReason {
    /// The bytes end before the field does. The place is the field's first byte.
    Truncated,
    /// A number before a list or a run of bytes is not in its shortest form. The place is its first
    /// byte.
    NonMinimal,
    /// Such a number is above `MAX_COMPACT`. The place is its first byte.
    TooLarge,
    /// The byte after a marker is not `01`. The place is that byte.
    BadFlag,
    /// There are 0 transactions. The place is the first byte of their number.
    NoTransaction,
    /// Bytes follow the last transaction. The place is the first of them.
    Rest,
}

/// Why no block was read.
#[derive(Clone, Copy, Debug, PartialEq, Eq)]
pub enum BlockError {
    /// The bytes are no block.
    BadBlock {
        /// The first byte of the field that is wrong, counted from 0.
        place: u64,
        /// What is wrong with it.
        reason: BlockReason,
    },
    /// Memory ran out.
    OutOfMemory,
}

impl From<OutOfMemory> for BlockError {
    ghost from_gives = { λ _ e. e ≡ OutOfMemory };

    fn from(_: OutOfMemory) -> BlockError {
        BlockError::OutOfMemory
    }
}

impl From<AllocError> for BlockError {
    ghost from_gives = { λ _ e. e ≡ OutOfMemory };

    fn from(_: AllocError) -> BlockError {
        BlockError::OutOfMemory
    }
}

impl<T: Drop> From<AllocFailed<T>> for BlockError {
    ghost from_gives = { λ _ e. e ≡ OutOfMemory };

    fn from(_: AllocFailed<T>) -> BlockError {
        BlockError::OutOfMemory
    }
}
