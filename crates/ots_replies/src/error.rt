//! Why no replies are read.
ghost use Rattle.std.specs.Prelude.{◌≡◌};
ghost use Rattle.ots_replies.specs.declared.error.SheetError.TheVariants.{OutOfMemory, ReadFault};

use ots_outside::Failed;

/// Why a text gives no replies.
#[derive(Clone, Copy, Debug, PartialEq, Eq)]
pub enum SheetError {
    /// A read failed, and the source has counted the fault.
    ReadFault,
    /// The number of the first line that is not as it is to be, counted from 1: it is neither a request
    /// with its reply, after those before it, nor the right sum; or it follows the sum; or it goes past
    /// a limit. One more than the lines where the sum is missing.
    BadSheet(u64),
    /// Memory ran out.
    OutOfMemory,
}

impl From<Failed> for SheetError {
    ghost from_gives = { λ _ e. e ≡ ReadFault };

    fn from(_: Failed) -> Self {
        SheetError::ReadFault
    }
}

impl From<ots_base::OutOfMemory> for SheetError {
    ghost from_gives = { λ _ e. e ≡ OutOfMemory };

    fn from(_: ots_base::OutOfMemory) -> Self {
        SheetError::OutOfMemory
    }
}
