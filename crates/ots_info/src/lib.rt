//! The text that `ots info` prints of a proof.
#![tactic(auto)]

mod listing;

pub use listing::{put_pair, put_proof};
