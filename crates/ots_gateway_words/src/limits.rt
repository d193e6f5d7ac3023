//! Limits on the words.

/// The most trees that a round may need, as many as a list of calendars has addresses. The limit is this
/// project's own.
pub const MAX_TREES: u64 = 16;

/// The greatest port.
pub const MAX_PORT: u64 = 65535;

/// The most links of a round. The limit is this project's own.
pub const MAX_ROUND: u64 = 1024;

/// The most connections that serving may be bounded to, as for the calendar's program.
pub const MAX_ACCEPT: u64 = 4294967295;
