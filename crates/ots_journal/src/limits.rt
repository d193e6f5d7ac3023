//! The journal's limits, all of them this project's.

/// The bytes of a journal without entries: the magic and a gate.
pub const EMPTY_JOURNAL: u64 = 9;

/// The most bytes of a journal, 1 GiB.
pub const MAX_JOURNAL: u64 = 1_073_741_824;

/// The most entries of a group.
pub const MAX_GROUP: usize = 1024;

/// The fewest bytes of an entry's payload.
pub const MIN_ENTRY_PAYLOAD: usize = 44;

/// The most bytes of an entry's payload, 1 MiB.
pub const MAX_ENTRY_PAYLOAD: usize = 1_048_576;
