//! The calendar `otsd`: what its words, the files, the disk and the sink make it do, proved, so
//! that the program only makes the real objects and calls it.
//!
//! [`run_calendar`] reads the words and does the command that they ask for, of
//! `ots_calendar_maintenance`, `ots_calendar_batch` or `ots_calendar_serve`: it reads the files that
//! it names, opens the journal, asks the book and prints. What is refused before the journal is
//! opened calls no disk.
#![tactic(auto)]

pub mod examples;
mod laws;
mod run;
mod told;

pub use laws::one_answer;
pub use ots_calendar_endings::DaemonStatus;
pub use ots_calendar_serve::Returned;
pub use run::run_calendar;
pub use told::Run;
