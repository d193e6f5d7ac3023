use ots_tree::Tree;

/// What a calendar answers of a commitment.
#[derive(Debug, Drop)]
pub enum Answer {
    /// It is stored, and an anchor covers it: the one path from it to the Merkle root of the
    /// anchor's block.
    Complete(Tree),
    /// It is stored, and no anchor covers it yet.
    Pending,
    /// It is not stored.
    Unknown,
}
