//! The lines that are printed of conversations with calendars.
#![tactic(auto)]

mod lines;

pub use lines::{put_calendars, put_pair};
