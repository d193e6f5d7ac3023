use ots_merkle::Branch;
use ots_outside::Bytes;

/// The way from a tip's root to the Merkle root of the block at a height.
#[derive(Debug, Drop)]
pub struct Anchor {
    /// The index of the tip's first commitment.
    pub first: u64,
    /// How many commitments the tip has.
    pub count: u64,
    /// The height of the block.
    pub height: u64,
    /// The tip's root.
    pub root: [u8; 32],
    /// What stands before the root in the transaction.
    pub prefix: Bytes,
    /// What stands after it.
    pub suffix: Bytes,
    /// The way from the transaction to the block's root.
    pub branch: Branch,
}
