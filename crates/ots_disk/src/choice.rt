//! What a crash may leave of one write: nothing, some of its bytes, or all.

/// What a crash makes of the writes that no sync has made durable.
#[derive(Clone, Copy, Debug, PartialEq, Eq)]
pub enum Choice {
    /// All are undone.
    Dropped,
    /// All are done.
    Kept,
    /// The whole range of each holds this byte.
    Fill(u8),
}
