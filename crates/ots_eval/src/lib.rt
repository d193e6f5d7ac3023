//! What a timestamp proof confirms, under one path.
//!
//! | crate | what it has |
//! |---|---|
//! | `ots_verdicts` | the value of a path, and the verdict of a proof in memory |
//! | `ots_verifier` | the verdict of a proof file that comes in pieces |
//!
//! Libraries stand on the one that they need.
#![tactic(auto)]

pub use ots_verdicts::{
    Best, Chain, Confirmation, Found, Verdict, one_verdict, some_verdict, value, verdict,
};
pub use ots_verifier::{CheckError, Checked, SourceError, VERIFIER_BYTES, Verifier, check_source};
