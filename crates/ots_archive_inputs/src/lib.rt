//! The files that the commands of `otsarchive` read: proofs, files that are hashed, sums, and sheets of replies. Each is a
//! [`Reader`](ots_archive_world::Reader), by which a world reads a name.
#![tactic(auto)]

mod proof;
mod replies;
mod sums;
mod target;

pub use proof::ProofReader;
pub use replies::RepliesReader;
pub use sums::SumsReader;
pub use target::TargetReader;
