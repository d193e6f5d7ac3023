//! Anchoring: which transaction of a block holds a calendar's root, and the path from a commitment
//! to what the block's Merkle root is made of.
#![tactic(auto)]

mod mark;
mod search;
mod standing;
mod way;

pub use search::{FindError, Found, find};
pub use way::{complete_path, complete_way, hashed};
