//! A disk over the calls of one file, of which each is noted with its answer.
//!
//! | type | what it is |
//! |---|---|
//! | [`FileCalls`] | the calls of a file, with a record of each |
//! | [`FileDisk`] | a disk over any such file: it opens it, carries calls on, and stops at a failed sync |
//! | [`SystemFile`] | a named file of the system, whose answers are noted and not believed |
//! | [`MemoryFile`] | a file in memory with its device, which tells its bytes |
#![tactic(auto)]

mod file_calls;
mod file_disk;
mod memory_file;
mod record;
mod runs;
mod system_file;

pub use file_calls::FileCalls;
pub use file_disk::FileDisk;
pub use memory_file::MemoryFile;
pub use system_file::SystemFile;
