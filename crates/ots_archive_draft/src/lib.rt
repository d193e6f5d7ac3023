//! The command of `otsarchive` that makes drafts: `draft`.
//!
//! The files are hashed, or their hashes stand in a file of sums (`files`); a nonce is drawn for each (`drawing`), and one
//! tree is made over all; then the draft of each is written (`writing`).
#![tactic(auto)]

mod drafting;
mod drawing;
mod files;
mod writing;

pub use drafting::draft;
