//! The commands of `ots` that print a proof or write one anew: `info`, `canon`, `prune` and `merge`.
#![tactic(auto)]

mod listing;
mod merging;
mod rewriting;

pub use listing::info;
pub use merging::merge;
pub use rewriting::{Rewriting, rewrite};
