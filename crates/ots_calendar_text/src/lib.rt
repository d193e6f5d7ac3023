//! How a run of `otsd` ends, and the lines that it prints.
#![tactic(auto)]

mod lines;
mod refusal;
mod status;

pub use lines::{
    put_anchor, put_anchored, put_commit, put_listening, put_migrated, put_served, put_tip,
    put_tree,
};
pub use refusal::put_refusal;
pub use status::DaemonStatus;
