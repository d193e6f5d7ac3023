//! Printing in pieces: a sink with room before it, so that a text reaches it in few writes and is
//! never in memory as a whole.
#![tactic(auto)]

mod printer;
mod room;

pub use printer::Printer;
