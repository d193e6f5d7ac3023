//! The limits of sheets. They are this project's.

/// The most lines of a sheet, with the last one, which has the sum.
pub const MAX_LINES: usize = 1_048_576;

/// The most bytes of a sheet, 256 MiB.
pub const MAX_SHEET: usize = 268_435_456;

/// How many bytes the message of a `post` has: a digest of SHA-256.
pub const POST_MESSAGE: usize = 32;
