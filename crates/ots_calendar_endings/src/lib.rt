//! How a run of the calendar ends, and what its commands share: opening the journal, and printing.
//!
//! A command's contract says that it ran from one moment to another with its meaning; [`Outside`] is
//! what is told at a moment of all that lies outside the run.
#![tactic(auto)]

mod opening;
mod outside;
mod printing;

pub use opening::{Closed, open_book, open_store};
pub use ots_calendar_text::DaemonStatus;
pub use outside::Outside;
pub use printing::{Text, print, print_last, print_listening, refuse, refuse_input};
