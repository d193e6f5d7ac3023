//! Merkle trees: a calendar's, whole or growing leaf by leaf, and a block's.
#![tactic(auto)]

mod block;
mod branch;
mod calendar;
mod hashes;
mod laws;
mod peaks;
mod pushed;
mod row;
mod way;
mod ways;

pub use block::{block_branch, block_root};
pub use branch::{Branch, Side};
pub use calendar::root;
pub use laws::{
    block_tree, branch_leads_to_root, calendar_tree, path_is_short, path_leads_to_root,
};
pub use peaks::Peaks;
pub use pushed::Pushed;
pub use way::{add_path, path};
pub use ways::{paths, paths_and_root};
