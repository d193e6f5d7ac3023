//! The command of `ots` that stamps files: `stamp`.
//!
//! Files are read and hashed (`hashing`), a nonce is drawn for each (`drawing`), calendars are asked to timestamp the
//! root over all of them (`submitting`), and each file's proof is made (`write_stamps`).
#![tactic(auto)]

mod drawing;
mod hashing;
mod laws;
mod replies;
mod stamping;
mod submission;
mod submitting;
mod write_stamps;

pub use laws::some_can_be_stamped;
pub use stamping::stamp;
