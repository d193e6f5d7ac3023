//! The limits of HTTP messages.

/// The most bytes of the head of a request or a reply. The limit is this project's.
pub const MAX_HEAD: usize = 8192;

/// The most fields of a head. The limit is this project's.
pub const MAX_FIELDS: usize = 64;

/// The greatest number of a record that a request may name, 2^63 - 1. The limit is this project's.
pub const MAX_RECORD: u64 = 9_223_372_036_854_775_807;
