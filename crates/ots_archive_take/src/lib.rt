//! The command of `otsarchive` that takes what calendars answered: `take`.
//!
//! The names under which proofs are made are looked at first (`names`), then it is told what the sheet has of each calendar
//! (`counting`), and then each proof is taken (`taking`) and made (`making`).
#![tactic(auto)]

mod command;
mod counting;
mod making;
mod names;
mod taking;

pub use command::take;
