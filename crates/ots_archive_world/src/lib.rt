//! What the program `otsarchive` is handed of the outside: files by name, standard output and nonces.
//!
//! [`World`] is all of it, and contracts see what is told of it at a moment. Each call says what it does to that: a file
//! is read, a text is printed, a file is made, a nonce is drawn. [`Handed`] makes a world of a shelf, a sink and a
//! giver of nonces.
#![tactic(auto)]

mod handed;
mod reader;
mod world;

pub use handed::Handed;
pub use reader::{Reader, ReadingError};
pub use world::World;
