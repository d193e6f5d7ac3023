//! How a run of the client ends, and the lines that it prints.
#![tactic(auto)]

mod lines;
mod refusal;
mod status;

pub use lines::{put_chain, put_complete, put_sample, put_verdict, put_wrote};
pub use refusal::put_refusal;
pub use status::{Status, complete_status, verdict_status};
