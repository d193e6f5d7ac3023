//! Verifies a proof file that comes in pieces, in memory that is taken when it begins.
//!
//! The format is that of the reference library python-opentimestamps
//! (`opentimestamps/core/timestamp.py`, `DetachedTimestampFile`).
#![tactic(auto)]

mod checked;
mod following;
mod messages;
mod outcome;
mod progress;
mod rows;
mod source;
mod stage;
mod verifier;

pub use checked::{CheckError, Checked};
pub use source::{SourceError, check_source};
pub use verifier::{VERIFIER_BYTES, Verifier};
