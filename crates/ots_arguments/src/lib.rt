//! The words of a command line as `clap` takes them for a command's arguments, and the values that they give.
#![tactic(auto)]

mod arguments;
mod error;
mod names;
mod numbers;

pub use arguments::{Argument, Kind, read_arguments, value};
pub use error::WordsError;
pub use names::{file_name, file_names, nonempty};
pub use numbers::{number, number_of, perhaps_number_of};
