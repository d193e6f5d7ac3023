//! The steps that the commands of `otsarchive` are made of: reading a list of calendars, files and the proofs that are
//! named; making a file; and printing. Each says how a run goes on or ends with it.
#![tactic(auto)]

mod entries;
mod inputs;
mod making;
mod printing;
mod proofs;
mod worst;

pub use entries::{Entries, Entry, read_entries};
pub use inputs::{look, need, read_list};
pub use making::make;
pub use printing::{refuse, say, tell, tell_refusal};
pub use proofs::{read_proof, try_proof};
pub use worst::worse;
