//! One call of a disk, as it is noted.

use ots_outside::Bytes;

/// A call of a disk in memory.
#[derive(Debug, Drop)]
pub enum DiskCall {
    /// The length was asked.
    Length,
    /// Bytes were read.
    Read,
    /// These bytes were written at this place.
    Write(u64, Bytes),
    /// All that was written before was to be made durable.
    Sync,
}

/// A call, and whether it failed.
#[derive(Debug, Drop)]
pub struct MadeCall {
    pub call: DiskCall,
    pub failed: bool,
}
