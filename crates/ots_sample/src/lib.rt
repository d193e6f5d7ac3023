//! A large proof made by a rule, to see in one call that a client works and how fast: it is written,
//! read, brought to canonical form and verified.
#![tactic(auto)]

mod headers;
mod laws;
mod memory;
mod outcome;
mod proof;
mod sampling;
mod tokens;

pub use laws::{one_sample, verdict_of_sample};
pub use outcome::Sample;
pub use sampling::{MAX_SAMPLE, sample};
