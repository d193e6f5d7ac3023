//! The words of the command line of `otsd`: what they ask for, where they are of a command's form.
#![tactic(auto)]

mod command;
mod words;

pub use command::{Anchoring, Batch, DaemonCommand, Serving};
pub use ots_arguments::WordsError;
pub use words::read_words;
