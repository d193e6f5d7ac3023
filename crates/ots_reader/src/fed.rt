//! What feeding a piece answers.

/// What has come of a tree with a piece.
#[derive(Clone, Copy, Debug, PartialEq, Eq)]
pub enum Fed {
    /// The tree goes on after the piece.
    More,
    /// The tree is whole. The number is how many bytes of the piece belong to it.
    Done(usize),
}
