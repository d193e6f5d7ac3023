//! How much memory a disk in memory takes when it is made.

/// How much a disk in memory can do, which is reserved when it is made.
#[derive(Clone, Copy, Debug, PartialEq, Eq)]
pub struct DiskRoom {
    /// How many calls it can note.
    pub calls: usize,
    /// How many bytes one write can have.
    pub write: usize,
    /// How many bytes the file can reach to by writes.
    pub file: usize,
}
