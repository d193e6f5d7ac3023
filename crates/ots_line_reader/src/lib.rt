//! The lines of a text that comes in pieces, as through a pipe: it is read once, and no more of it than
//! 65,536 bytes is held at once.
#![tactic(auto)]

mod reader;

pub use reader::{Found, LineReader, ROOM};
