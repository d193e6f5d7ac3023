//! Outputs: a file that is made under a name, a text that is printed, and lines that both programs print.
#![tactic(auto)]

mod lines;
mod output;
mod text;

pub use lines::{put_bad_address, put_name, put_number};
pub use output::{Contents, OutputError, make_file};
pub use text::{PrintedText, print_whole};
