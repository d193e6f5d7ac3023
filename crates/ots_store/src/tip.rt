/// A tree over stored commitments, from one index on, whose root is to be put into a block.
#[derive(Clone, Copy, Debug, PartialEq, Eq)]
pub struct Tip {
    /// The index of the first commitment.
    pub first: u64,
    /// How many commitments.
    pub count: u64,
    /// The root of the tree.
    pub root: [u8; 32],
}
