//! The commands of `ots` that check what they read and print one line: `verify`, `chain` and `sample`.
#![tactic(auto)]

mod chaining;
mod evidence;
mod sampling;
mod verifying;

pub use chaining::chain;
pub use sampling::sample;
pub use verifying::verify;
