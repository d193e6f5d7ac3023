//! Where reading stops.
ghost use Rattle.std.specs.Prelude.{◌≡◌, ◌-◌, length};
ghost use Rattle.ots_block.specs.declared.fault.BlockError.TheVariants.{BadBlock};

use crate::fault::{BlockError, BlockReason};

/// Why a field is not whole, and how many bytes are left from its first byte on.
#[derive(Clone, Copy)]
pub(crate) struct Stop {
    pub left: usize,
    pub reason: BlockReason,
}

impl Stop {
    /// A field is not whole that begins these bytes.
    pub(crate) fn at(bytes: &[u8], reason: BlockReason) -> Stop
        ensures left { result.left ≡ length bytes.now }
        ensures reason { result.reason ≡ reason }
    {
        Stop {
            left: bytes.len(),
            reason,
        }
    }

    /// The same as the error of a block with `total` bytes.
    pub(crate) fn in_block(self, total: usize) -> BlockError
        ensures { result ≡ BadBlock (total - self.left) self.reason }
    {
        BlockError::BadBlock {
            place: total.saturating_sub(self.left) as u64,
            reason: self.reason,
        }
    }
}
