//! Detached proof files: read, with each fault named, and written; and the digests of files.
//!
//! The format is that of the reference library python-opentimestamps
//! (`opentimestamps/core/timestamp.py`, `DetachedTimestampFile`).
#![tactic(auto)]

mod hashing;
mod header;
mod laws;
mod reading;
mod writing;

pub use hashing::{HashError, hash_source};
pub use header::{FileHeader, read_header};
pub use laws::{fault_or_file, one_fault, one_file, written_file};
pub use reading::{FileError, read_bytes, read_file};
pub use writing::{file_length, write_file};
