//! The trees by which a calendar answers fast: over the commitments of its anchors, and over the newest.
#![tactic(auto)]

mod kept;
mod trees;
mod way;

pub use kept::{Closing, KeptTree};
pub use trees::{Trees, room_for_all};
pub use way::Way;
