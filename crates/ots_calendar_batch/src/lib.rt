//! The command `batch` of the calendar: digests are put under one commitment, and the tree of each
//! is printed.
#![tactic(auto)]

mod batch_command;
mod reading;
mod round;
mod trees;

pub use batch_command::batch;
