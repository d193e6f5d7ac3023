//! The words of the command line of `otsarchive`: what they ask for, where they are of a command's form.
#![tactic(auto)]

mod arguments;
mod command;
mod limits;
mod names;
mod words;

pub use command::{ArchiveCommand, Asking, Drafting, Taking};
pub use limits::{MAX_NAMES, MAX_WANTED};
pub use names::Names;
pub use ots_arguments::WordsError;
pub use words::read_words;
