use crate::known::Known;

/// Where a caller stands: it has no number, or waits for its own to be served, or holds the book.
/// A holder knows the records that the other callers were last told of.
pub(crate) enum Stage {
    Idle,
    Waits(u64),
    Holds(u64, Known),
}

/// What a caller knows. It exists in proofs alone: no value of it is made.
pub(crate) struct View {
    // The records that it has seen.
    pub(crate) seen: Known,
    // Those that a pass joined to it had seen, until the longer of the two lists is found.
    pub(crate) also: Known,
    // The greatest count of records that it was told.
    pub(crate) told: u64,
    // For how many callers it stands.
    pub(crate) share: u64,
    // The limit of the book's journal.
    pub(crate) limit: u64,
    pub(crate) stage: Stage,
}
