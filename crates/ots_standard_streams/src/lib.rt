//! The standard streams of a program: their descriptors are theirs, also where it was started without
//! them, and what is printed into a file ends where files may grow no more.
#![tactic(auto)]

mod output;
mod streams;

pub use output::StandardOutput;
pub use streams::StandardStreams;
