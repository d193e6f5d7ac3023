//! How a run of `otsarchive` ends, and the lines that it prints.
#![tactic(auto)]

mod lines;
mod names;
mod refusal;
mod status;

pub use lines::{ReplyCounts, put_asks, put_made, put_replies, put_same, put_skipped, put_wrote};
pub use names::put_shown;
pub use refusal::put_refusal;
pub use status::ArchiveStatus;
