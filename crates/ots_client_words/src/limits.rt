//! Limits on the words.

/// Files that are stamped together. The limit is this project's own.
pub const MAX_STAMPED: usize = 1024;

/// The greatest number of calendars that may be wanted, which is that of a list of addresses. The
/// limit is this project's own.
pub const MAX_WANTED: u64 = 16;

/// The most paths that a sample may have. The limit is this project's own.
pub const MAX_PATHS: u32 = 100_000;

/// The greatest height of a header, which is that of a signed number of 64 bits. The limit is this
/// project's own.
pub const MAX_HEIGHT: u64 = 9223372036854775807;
