//! The words of the command line of `ots`: what they ask for, where they are of a command's form.
#![tactic(auto)]

mod arguments;
mod command;
mod limits;
mod words;

pub use command::{
    Chaining, ClientCommand, HeaderFile, Sampling, Stamping, Upgrading, Verification,
};
pub use limits::{MAX_PATHS, MAX_STAMPED, MAX_WANTED};
pub use ots_arguments::WordsError;
pub use words::read_words;
