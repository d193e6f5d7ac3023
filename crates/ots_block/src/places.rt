//! Where the parts of a transaction begin.

/// Where a transaction and its parts begin, each counted from the end of the block.
#[derive(Clone, Copy)]
pub(crate) struct Places {
    /// The first byte of its version.
    pub start: usize,
    /// The first byte of the number of its inputs.
    pub body: usize,
    /// The first byte after its outputs, where its witness begins, if it has one.
    pub witness: usize,
    /// The first byte of its lock time.
    pub lock_time: usize,
}
