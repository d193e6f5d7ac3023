//! A token that has come.

use ots_tree::TokenRef;

/// A token that has come with a piece.
#[derive(Clone, Copy)]
pub struct Next<'a> {
    /// The token, where its parts stand: in the piece, or with the reader where it was cut between pieces.
    pub token: TokenRef<'a>,
    /// How many bytes of the piece belong to it, at least one.
    pub used: usize,
    /// Whether it is the tree's last one.
    pub last: bool,
}
