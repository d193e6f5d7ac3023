//! How the commands of `ots` end: the ground that they share.
//!
//! A command reads names, decides, and then makes files and prints. [`refuse_stop`] ends one that could not read a
//! name, [`print`] one that prints a text, and [`write_proof`] one that makes the file of a proof. What a command
//! does to a shelf and a sink is one relation, `Runs`.
#![tactic(auto)]

mod printing;
mod writing;

pub use printing::{print, refuse, refuse_after, refuse_stop};
pub use writing::{is_too_long, make_proof, write_proof};
