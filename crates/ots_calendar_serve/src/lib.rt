//! The command `serve` of the calendar: connections are answered, by several workers over one book.
#![tactic(auto)]

mod links;
mod reading;
mod serve_command;

pub use links::Links;
pub use serve_command::{Returned, serve};
