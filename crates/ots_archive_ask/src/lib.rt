//! The command of `otsarchive` that asks calendars: `ask`.
//!
//! The proofs are read one after another, and what each wants is gathered (`gathering`); then the sheet of all is made
//! (`sheet`), and its counts are told (`lines`). Nothing is sent: somebody carries the sheet.
#![tactic(auto)]

mod asking;
mod gathering;
mod laws;
mod lines;
mod sheet;

pub use asking::ask;
pub use laws::{one_sheet, one_total};
