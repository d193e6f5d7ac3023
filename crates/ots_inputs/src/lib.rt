//! Inputs by their names: what is under a name, which names are opened, and a file that is read whole or by its lines.
#![tactic(auto)]

mod error;
mod file;
mod lines;

pub use error::{InputError, Stop};
pub use file::{TooBig, read_file};
pub use lines::{Line, LinesError, ROOM, read_file_lines, read_lines};
