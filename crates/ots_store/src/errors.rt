ghost use Rattle.std.specs.Prelude.{◌≡◌};
ghost use Rattle.ots_store.specs.declared.errors.StoreError.TheVariants as why;

use ots_base::OutOfMemory;
use ots_disk::Disk;

/// Why a store was not opened.
#[derive(Clone, Copy, Debug, PartialEq, Eq)]
pub enum StoreError {
    /// This entry of the journal is the first that spells no record, or none that may follow those
    /// before it.
    BadRecord(u64),
    /// Memory ran out.
    OutOfMemory,
}

impl From<OutOfMemory> for StoreError {
    ghost from_gives = { λ _ e. e ≡ why.OutOfMemory };

    fn from(_: OutOfMemory) -> Self {
        StoreError::OutOfMemory
    }
}

/// A disk whose journal was not opened as a store, and why.
#[derive(Drop)]
pub struct RefusedStore<D: Disk> {
    pub disk: D,
    pub why: StoreError,
}
