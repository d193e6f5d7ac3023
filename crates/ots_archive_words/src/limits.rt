//! Limits on the words.

/// The most names of files. The limit is this project's own.
pub const MAX_NAMES: usize = 65_536;

/// The greatest number of calendars that may be wanted, as many as a list has addresses. The limit is this project's own.
pub const MAX_WANTED: u64 = 16;
