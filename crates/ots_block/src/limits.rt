//! The limit of a number before a list or a run of bytes.

/// The greatest number that may stand before a list or a run of bytes in a block: the most bytes of
/// a block file, 4 MiB. The limit is this project's.
pub const MAX_COMPACT: u64 = 4_194_304;
